//! The packet that an SCMP error message quotes.

ghost use Rattle.std.specs.Prelude.{◌≡◌};
ghost use Rattle.scion_packet.specs.Extensions.{layer};
ghost use Rattle.host_ports.specs.Quote.{quote_place, quoted_port, source_port_of};

use crate::layer::{SCMP, UDP, is_request, port_at};
use scion_header::{check_header_as, next_header, upper_place};

/// Where the quote begins in an SCMP message of this type, counted in bytes from the message's start;
/// none where messages of this type quote nothing.
pub(crate) fn quote_place(kind: u8) -> Option<usize>
    ensures { result ≡ quote_place kind }
{
    match kind {
        // the destination can't be reached, the packet is too big, or there is a problem with a parameter
        1 | 2 | 4 => Some(8),
        // an interface to another AS is down
        5 => Some(20),
        // two interfaces of an AS can't reach each other
        6 => Some(28),
        _ => None,
    }
}

/// The port from which an upper layer of this protocol was sent, of which the end may be missing.
fn source_port(protocol: u8, bytes: &[u8]) -> Option<u16>
    ensures { result ≡ source_port_of (layer protocol bytes.now) }
{
    if protocol == UDP {
        return port_at(0, 2, bytes);
    }
    if protocol == SCMP && !bytes.is_empty() && is_request(bytes[0]) {
        return port_at(4, 6, bytes);
    }
    None
}

/// The port from which a quoted packet was sent. There is none where the quote ends within the packet's
/// headers, where its header has a fault, or where its upper layer names no port of its sender.
pub(crate) fn quoted_port(quote: &[u8]) -> Option<u16>
    ensures { result ≡ quoted_port quote.now }
{
    if quote.len() < 12 {
        return None;
    }
    let Ok(ends) = check_header_as(quote[8], quote) else {
        return None;
    };
    let payload = &quote[ends.header..];
    let place = upper_place(next_header(quote), payload)?;
    source_port(place.protocol, &payload[place.at..])
}
