//! The answer to a datagram.

ghost use Rattle.std.specs.Prelude.{◌≡◌, ◌≤◌, true, None, IfOk, OnErr, drop, length};
ghost use Rattle.bfd_answer.specs.Answer.{bfd_reply};
ghost use Rattle.bfd_answer.specs.Good.{IfAnswered, IsGoodAnswer};
ghost use Rattle.process_packet.specs.Network.{network};
ghost use Rattle.scion_packet.specs.Header.{header_end};
ghost use Rattle.scion_packet.specs.OneHop.{one_hop_fault};
ghost use Rattle.scmp_answer.specs.Message.{longest};
ghost use Rattle.scmp_answer.specs.Outcome.{is_dropped, outcome_in, outcome_of, used};
ghost use Rattle.packet_answer.specs.Answer.{IsAnswerable, IsGood, answered, bfd_outcome, leaves};

use bfd_answer::bfd_answer_into;
use process_packet::{Arrival, BFD, Cause, Config, NoMemory, Problem, Underlay};
use scmp_answer::{AnswerLen, Answered};
use std::alloc::Global;

/// The most bytes that an answer has, its headers included.
pub const LONGEST_ANSWER: usize = 1232;

/// Answers a BFD control packet that came by the link.
fn control_answer_into(
    config: &Config,
    link: u16,
    now: u64,
    bytes: &[u8],
    out: &mut [u8],
) -> AnswerLen
    requires sound { one_hop_fault bytes.now ≡ None }
    requires whole { 24 ≤ length (drop (header_end bytes.now) bytes.now) }
    requires room { length out.old ≡ longest }
    ensures answer { outcome_in out.new result ≡ bfd_outcome link (bfd_reply (network config.now) link now bytes.now) }
    ensures good { IfAnswered (bfd_reply (network config.now) link now bytes.now) IsGoodAnswer }
    ensures len { used result ≤ longest }
    ensures unwritten { is_dropped result ≡ true → out.new ≡ out.old }
{
    match bfd_answer_into(config, link, now, bytes, out) {
        Some(len) => AnswerLen::Send {
            link,
            to: None,
            len,
        },
        None => AnswerLen::Drop(Cause::NoAnswer),
    }
}

/// Answers a datagram that came by the link (0 is the internal network) from the underlay's source, at the second
/// `now` of Unix time, for what the decision answers it for: by BFD for kind 203, else by SCMP, as `bfd_answer` and
/// `scmp_answer` have it. The answer is at the front of the buffer, and what follows it there may have changed too. On
/// `Drop` nothing was written: the buffer is as it was. It takes no memory.
pub fn answer_into(
    config: &Config,
    link: u16,
    source: Underlay,
    now: u64,
    bytes: &[u8],
    problem: &Problem,
    out: &mut [u8; LONGEST_ANSWER],
) -> AnswerLen
    requires { IsAnswerable bytes.now problem.now }
    ensures answer { outcome_in out.new result ≡ answered config.now link source now bytes.now problem.now }
    // what holds of each answer
    ensures good { IsGood config.now link source now bytes.now problem.now }
    ensures len { used result ≤ longest }
    ensures unwritten { is_dropped result ≡ true → out.new ≡ out.old }
{
    if problem.kind == BFD {
        control_answer_into(config, link, now, bytes, out)
    } else {
        scmp_answer::answer_into(config, link, source, bytes, problem, out)
    }
}

/// The same with the answer's bytes in memory of their own. `NoMemory` is answered only where there is an answer to be
/// sent.
pub fn answer(
    alloc: Global,
    config: &Config,
    arrival: &Arrival,
    problem: &Problem,
) -> Result<Answered, NoMemory>
    requires { IsAnswerable arrival.now.bytes.items problem.now }
    ensures answer { let a = arrival.entry.now in
        IfOk result (λ made. outcome_of made ≡ answered config.now a.link a.source a.now a.bytes.items problem.now) }
    ensures refused { let a = arrival.entry.now in OnErr result (leaves (answered config.now a.link a.source a.now a.bytes.items problem.now) ≡ true) }
{
    let mut out = [0; LONGEST_ANSWER];
    let bytes = arrival.bytes.as_slice();
    match answer_into(
        config,
        arrival.link,
        arrival.source,
        arrival.now,
        bytes,
        problem,
        &mut out,
    ) {
        AnswerLen::Drop(cause) => Ok(Answered::Drop(cause)),
        AnswerLen::Send { link, to, len } => match Vec::from_slice(alloc, &out[..len]) {
            Ok(bytes) => Ok(Answered::Send { link, to, bytes }),
            Err(_) => Err(NoMemory),
        },
    }
}
