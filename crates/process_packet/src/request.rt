//! Traceroute requests.

ghost use Rattle.std.specs.Prelude.{◌≡◌, None, ◌≤◌, length};
ghost use Rattle.scion_packet.specs.Header.{header_of, front_end};
ghost use Rattle.process_packet.specs.Request.{is_request, request};

use field_rows::u16_at;
use scion_header::{Header, next_header, upper_place};

/// The next header of SCMP messages, the type of a traceroute request, and its length in bytes.
const SCMP: u8 = 202;

const TRACEROUTE_REQUEST: u8 = 130;

const REQUEST_LEN: usize = 24;

/// The identifier and the sequence number of a traceroute request, by the bytes after the header; none
/// where these are no such request. Its checksum isn't looked at (SCMP specification, "Traceroute
/// Request").
pub fn trace_request(header: &Header, bytes: &[u8]) -> Option<(u16, u16)>
    ensures { result ≡ request header.now.next_header bytes.now }
{
    request_in(header.next_header, bytes)
}

/// The same by the protocol that the header names for these bytes.
fn request_in(next_header: u8, bytes: &[u8]) -> Option<(u16, u16)>
    ensures { result ≡ request next_header bytes.now }
{
    let place = upper_place(next_header, bytes)?;
    let message = &bytes[place.at..];
    if place.protocol != SCMP || message.len() < REQUEST_LEN {
        return None;
    }
    if message[0] != TRACEROUTE_REQUEST || message[1] != 0 {
        return None;
    }
    Some((u16_at(message, 4), u16_at(message, 6)))
}

/// Whether a datagram, whose header has no fault, carries such a request after it.
#[inline(always)]
pub(crate) fn carries_request(bytes: &[u8], payload: &[u8]) -> bool
    requires addresses { front_end bytes.now ≤ length bytes.now }
    ensures { result ≡ is_request (header_of bytes.now).next_header payload.now }
{
    request_in(next_header(bytes), payload).is_some()
}
