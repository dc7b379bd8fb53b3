//! The port of a packet's destination.

ghost use Rattle.std.specs.Prelude.{◌≡◌};
ghost use Rattle.host_ports.specs.Port.{destination_port, message_port};

use crate::layer::{SCMP, UDP, is_reply, port_at};
use crate::quote::{quote_place, quoted_port};
use scion_header::upper_place;

/// The same of an SCMP message.
fn message_port(message: &[u8]) -> Option<u16>
    ensures { result ≡ message_port message.now }
{
    if message.is_empty() {
        return None;
    }
    let kind = message[0];
    if is_reply(kind) {
        return port_at(4, 8, message);
    }
    let place = quote_place(kind)?;
    if message.len() < place {
        return None;
    }
    quoted_port(&message[place..])
}

/// The port at which the application of a packet's end host listens, by the bytes after the packet's
/// header, whose first ones are of the protocol `next_header`. Extension headers are passed over, as
/// `upper_place` does. Of UDP it is the destination port, where the whole UDP header is there (RFC 768); of
/// an SCMP echo or traceroute reply the identifier; of an SCMP error message the source port of the UDP
/// header, or the identifier of the request, in the packet that it quotes (SCMP specification, "Echo
/// Reply", "Traceroute Reply"). All else has none.
pub fn destination_port(next_header: u8, bytes: &[u8]) -> Option<u16>
    ensures { result ≡ destination_port next_header bytes.now }
{
    let place = upper_place(next_header, bytes)?;
    let upper = &bytes[place.at..];
    if place.protocol == UDP {
        return port_at(2, 8, upper);
    }
    if place.protocol == SCMP {
        return message_port(upper);
    }
    None
}
