//! The answer to a control packet.

ghost use Rattle.std.specs.Prelude.{◌≡◌, ◌≤◌, ◌+◌, None, length, drop, MatchOption, option_map, take};
ghost use Rattle.scion_packet.specs.Header.{header_end};
ghost use Rattle.scion_packet.specs.OneHop.{one_hop_fault, one_hop_spelling};
ghost use Rattle.process_packet.specs.Network.{network};
ghost use Rattle.bfd_answer.specs.Answer.{answer_packet, bfd_reply};
ghost use Rattle.bfd_answer.specs.Good.{IfAnswered, IsGoodAnswer, IsWritten};

use crate::ends::{ONE_HOP_LEN, header_over};
use crate::hop::path_out;
use bfd_control::{CONTROL_PACKET_LEN, write_answer};
use path_fields::write_one_hop;
use process_packet::{Config, Link};
use scion_header::{Domain, check_header_as, header_is_lawful, write_header_as};

/// The path type of a path of one hop (PathType).
const ONE_HOP_PATH: u8 = 2;

/// The most bytes that an answer has: its header with two IPv6 hosts, its path and the control packet.
pub const LONGEST_BFD_ANSWER: usize = 116;

/// The bytes after the header of a datagram without a fault.
fn payload(bytes: &[u8]) -> &[u8]
    requires { one_hop_fault bytes.now ≡ None }
    ensures { result.now ≡ drop (header_end bytes.now) bytes.now }
{
    let Ok(ends) = check_header_as(ONE_HOP_PATH, bytes) else {
        unreachable!()
    };
    &bytes[ends.header..]
}

/// Writes the answer to a control packet of these bytes that came by the link at the front, and says how many bytes
/// it is.
fn write_packet(
    config: &Config,
    link: &Link,
    there: Domain,
    now: u64,
    received: &[u8],
    out: &mut [u8],
) -> usize
    requires whole { 24 ≤ length received.now }
    requires room { 116 ≤ length out.old }
    ensures { IsWritten (answer_packet (network config.now) link.now there now received.now) result out.new }
{
    let header = header_over(config, link, there);
    let (info, hop) = path_out(config, link.id, now);
    header_is_lawful();
    let Ok(front) = write_header_as(ONE_HOP_PATH, &header, out) else {
        unreachable!()
    };
    let end = front + ONE_HOP_LEN;
    write_one_hop(&info, &hop, out, front);
    write_answer(u32::from(link.id), received, out, end);
    end + CONTROL_PACKET_LEN
}

/// Answers a datagram without a fault that came by the link at the second `now` of Unix time and carries a BFD control
/// packet on a path of one hop: writes the answer at the front of the buffer, and says how many bytes it is. It
/// leaves by the same link, to the link's other end. Where the link isn't one of this router, or its configuration
/// names no neighbour, there is no answer, and the buffer is as it was. It takes no memory.
pub fn bfd_answer_into(
    config: &Config,
    link: u16,
    now: u64,
    bytes: &[u8],
    out: &mut [u8],
) -> Option<usize>
    requires sound { one_hop_fault bytes.now ≡ None }
    requires whole { 24 ≤ length (drop (header_end bytes.now) bytes.now) }
    requires room { 116 ≤ length out.old }
    ensures answer { option_map (λ len. take len out.new) result ≡ option_map one_hop_spelling (bfd_reply (network config.now) link now bytes.now) }
    // what holds of each answer
    ensures good { IfAnswered (bfd_reply (network config.now) link now bytes.now) IsGoodAnswer }
    ensures len { MatchOption result (out.new ≡ out.old) (λ len. len ≤ 116) }
{
    match config.own_link(link) {
        None => None,
        Some(own) => match own.neighbor {
            None => None,
            Some(there) => {
                let received = payload(bytes);
                Some(write_packet(config, own, there, now, received, out))
            }
        },
    }
}
