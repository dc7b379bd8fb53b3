//! The answer to a datagram.

ghost use Rattle.std.specs.Prelude.{◌≡◌, ◌≤◌, true, None, Some, IfOk, OnErr, length, if◌then◌else◌};
ghost use Rattle.path_fields.specs.Path.{fields_of};
ghost use Rattle.scion_header.specs.Address.{host_address};
ghost use Rattle.scion_header.specs.Header.{header_fields};
ghost use Rattle.scion_packet.specs.Packet.{Packet, first_fault};
ghost use Rattle.scmp_answer.specs.Message.{longest};
ghost use Rattle.scmp_answer.specs.Outcome.{IfSent, IsGood, IsWritten, is_dropped, is_sent, outcome, outcome_in, outcome_of, used};
ghost use Rattle.scmp_answer.specs.Reply.{answer_packet, is_left_unanswered, local_address, reply};
ghost use Rattle.scmp_answer.specs.WayBack.{is_external};

use crate::answer_header::{answer_header, host_len, local_address};
use crate::message::{fixed_len, quote};
use crate::outcome::{AnswerLen, Answered};
use crate::parsed_packet::ParsedPacket;
use crate::way_back::{has_no_way_back, way_back};
use crate::writing::{path_len, seal, write_front, write_message};
use path_fields::Path;
use process_packet::{Arrival, Cause, Config, NoMemory, Problem, TRACEROUTE_REPLY, Underlay};
use scion_header::{Address, Header, Upper, header_is_lawful, upper_layer};
use std::alloc::Global;

/// The most bytes that an answer has, its headers included.
pub const LONGEST_ANSWER: usize = 1232;

/// Whether the packet is an SCMP error message, or can't be told from one, and the answer would be
/// another.
fn is_left_unanswered(header: &Header, payload: &[u8], problem: &Problem) -> bool
    ensures { (p : Packet) → header_fields header.now ≡ p.header → payload.now ≡ p.payload → result ≡ is_left_unanswered p problem.now }
{
    if problem.kind == TRACEROUTE_REPLY {
        return false;
    }
    match upper_layer(header, payload) {
        Upper::Scmp(kind) => kind < 128,
        Upper::Cut => true,
        Upper::Other => false,
    }
}

/// The underlay address to which an answer leaves by the link by which its packet came.
fn back_to(link: u16, source: Underlay) -> Option<Underlay>
    ensures { result ≡ (if is_external link then None else Some source) }
{
    if link == 0 { Some(source) } else { None }
}

/// Writes the answer that takes this way at the front, and says how many bytes it is.
fn write_answer(
    here: &Address,
    arriving: &Header,
    payload: &[u8],
    way: &Path,
    bytes: &[u8],
    problem: &Problem,
    out: &mut [u8],
) -> usize
    requires { length out.old ≡ longest }
    ensures { (p : Packet) → header_fields arriving.now ≡ p.header → payload.now ≡ p.payload
        → IsWritten (answer_packet (host_address here.now) p (fields_of way.now) bytes.now problem.now) result out.new }
{
    let front = 28 + host_len(&arriving.source) + host_len(here);
    let header_len = front + path_len(way);
    let quote = quote(problem, header_len, bytes);
    let len = fixed_len(problem) + quote.len();
    let header = answer_header(*here, arriving, header_len, len);
    header_is_lawful();
    write_front(&header, way, out);
    write_message(here, arriving, payload, problem, quote, out, header_len);
    seal(out, front, header_len, len);
    header_len + len
}

/// Answers a datagram without a fault that came by the link (0 is the internal network) from the
/// underlay's source: tells its sender of a problem, or replies to its traceroute request. The answer
/// is at the front of the buffer, and what follows it there may have changed too. On `Drop` nothing was
/// written: the buffer is as it was. It takes no memory.
pub fn answer_into(
    config: &Config,
    link: u16,
    source: Underlay,
    bytes: &[u8],
    problem: &Problem,
    out: &mut [u8; LONGEST_ANSWER],
) -> AnswerLen
    requires { first_fault bytes.now ≡ None }
    ensures answer { outcome_in out.new result ≡ outcome (reply (local_address config.now) link source bytes.now problem.now) }
    // what holds of each answer
    ensures good { IfSent (reply (local_address config.now) link source bytes.now problem.now) IsGood }
    ensures len { used result ≤ longest }
    ensures unwritten { is_dropped result ≡ true → out.new ≡ out.old }
{
    let arriving = ParsedPacket::read(bytes);
    let payload = &bytes[arriving.payload..];
    if is_left_unanswered(&arriving.header, payload, problem) {
        return AnswerLen::Drop(Cause::NoAnswer);
    }
    if has_no_way_back(link, &arriving.path) {
        return AnswerLen::Drop(Cause::NoWayBack);
    }
    let way = way_back(link, &arriving.path);
    let here = local_address(config);
    let len = write_answer(&here, &arriving.header, payload, &way, bytes, problem, out);
    AnswerLen::Send {
        link,
        to: back_to(link, source),
        len,
    }
}

/// The same with the answer's bytes in memory of their own. `NoMemory` is answered only where there is an
/// answer to be sent.
pub fn answer(
    alloc: Global,
    config: &Config,
    arrival: &Arrival,
    problem: &Problem,
) -> Result<Answered, NoMemory>
    requires { first_fault arrival.now.bytes.items ≡ None }
    ensures answer { let a = arrival.entry.now in
        IfOk result (λ answered. outcome_of answered ≡ outcome (reply (local_address config.now) a.link a.source a.bytes.items problem.now)) }
    ensures refused { let a = arrival.entry.now in
        OnErr result (is_sent (reply (local_address config.now) a.link a.source a.bytes.items problem.now) ≡ true) }
{
    let mut out = [0; LONGEST_ANSWER];
    let bytes = arrival.bytes.as_slice();
    match answer_into(
        config,
        arrival.link,
        arrival.source,
        bytes,
        problem,
        &mut out,
    ) {
        AnswerLen::Drop(cause) => Ok(Answered::Drop(cause)),
        AnswerLen::Send { link, to, len } => match Vec::from_slice(alloc, &out[..len]) {
            Ok(bytes) => Ok(Answered::Send { link, to, bytes }),
            Err(_) => Err(NoMemory),
        },
    }
}
