//! What of an upper layer names a port, by its protocol and its type of message.

ghost use Rattle.std.specs.Prelude.{◌≡◌, ◌+◌, ◌≤◌};
ghost use Rattle.host_ports.specs.Layer.{is_reply, is_request, port_at};

use field_rows::u16_at;

/// The protocol numbers of UDP and of SCMP (NextHdr).
pub(crate) const UDP: u8 = 17;

pub(crate) const SCMP: u8 = 202;

/// The types of SCMP messages that have an identifier.
const ECHO_REQUEST: u8 = 128;

const ECHO_REPLY: u8 = 129;

const TRACEROUTE_REQUEST: u8 = 130;

const TRACEROUTE_REPLY: u8 = 131;

/// Whether an SCMP message of this type asks for a reply: an echo or a traceroute request.
pub(crate) fn is_request(kind: u8) -> bool
    ensures { result ≡ is_request kind }
{
    kind == ECHO_REQUEST || kind == TRACEROUTE_REQUEST
}

/// Whether an SCMP message of this type is the reply to a request.
pub(crate) fn is_reply(kind: u8) -> bool
    ensures { result ≡ is_reply kind }
{
    kind == ECHO_REPLY || kind == TRACEROUTE_REPLY
}

/// The number in the two bytes from `place` on, where at least `least` bytes are there.
pub(crate) fn port_at(place: usize, least: usize, bytes: &[u8]) -> Option<u16>
    requires inside { place + 2 ≤ least }
    ensures { result ≡ port_at place least bytes.now }
{
    if bytes.len() < least {
        return None;
    }
    Some(u16_at(bytes, place))
}
