//! Datagrams without a fault, and such as may be answered.

ghost use Rattle.std.specs.Prelude.{◌≡◌, ◌≤◌, None, true, drop, length};
ghost use Rattle.packet_answer.specs.Answer.{IsAnswerable};
ghost use Rattle.scion_packet.specs.Header.{header_end};
ghost use Rattle.scion_packet.specs.OneHop.{one_hop_fault};
ghost use Rattle.scion_packet.specs.Packet.{first_fault};

use path_fields::{check_one_hop, check_path};
use process_packet::{BFD, Problem};
use scion_header::{check_header, check_header_as};

/// Whether a datagram has no fault.
pub fn is_sound(bytes: &[u8]) -> bool
    ensures { result ≡ true → first_fault bytes.now ≡ None }
{
    let Ok(ends) = check_header(bytes) else {
        return false;
    };
    match check_path(&bytes[ends.addresses..ends.header]) {
        Ok(_) => true,
        Err(_) => false,
    }
}

/// Whether a datagram on a path of one hop has no fault, and room for a control packet of BFD after its header.
pub fn is_whole_control(bytes: &[u8]) -> bool
    ensures sound { result ≡ true → one_hop_fault bytes.now ≡ None }
    ensures whole { result ≡ true → 24 ≤ length (drop (header_end bytes.now) bytes.now) }
{
    let Ok(ends) = check_header_as(2, bytes) else {
        return false;
    };
    match check_one_hop(&bytes[ends.addresses..ends.header]) {
        Ok(()) => bytes[ends.header..].len() >= 24,
        Err(_) => false,
    }
}

/// Whether a datagram may be answered for this.
pub fn is_answerable(bytes: &[u8], problem: &Problem) -> bool
    ensures { result ≡ true → IsAnswerable bytes.now problem.now }
{
    if problem.kind == BFD {
        is_whole_control(bytes)
    } else {
        is_sound(bytes)
    }
}
