//! Runs of the workers, turn by turn. Where a growth is refused a run ends for want of memory, but where it is
//! refused to the sink, that sink fails once more, unless it is told to fail at this call anyhow.

use crate::counts::{CLOSED, FULL_PROCESSOR, NO_BUFFER, NOTHING, SEND_FAILED, totals};
use crate::datagrams::{datagram, firsts};
use crate::neighbour::NEAR;
use crate::run::{Outcome, Plan, Sizes, run};
use crate::sample_router::router;
use process_packet::{Bands, Totals};
use router_rules::Shared;
use sample_packets::{ANSWER, FIRST, IN_TIME, LATE, MAC_AT, OTHER_MAC, PAYLOAD_AT, with_bytes};
use std::alloc::{AllocError, Global};
use std::process::Abort;
use std::sync::Wait;
use std::test::*;
use worker_parts::{Next, Sent, Sink};

// Link 2's forwarder, four buffers beside the receiver's, four entries in each pipe, and a sink that never fails.
fn plan(turns: &'static str) -> Plan {
    Plan {
        sizes: Sizes {
            link: 2,
            buffers: 4,
            capacity: 4,
        },
        fails: &[],
        turns,
    }
}

// What came of a run of the router whose link 2 has these bands.
fn ran<R: AllocGlobal + Abort + Wait + Copy>(
    rt: R,
    bands: Bands,
    answers: Result<Vec<Next>, AllocError>,
    plan: Plan,
) -> Outcome {
    let config = router(rt.alloc(), bands).expect(&rt, "memory");
    let answers = answers.expect(&rt, "memory");
    run(rt, rt.alloc(), Shared::new(config), answers, plan)
}

// Whether just the packets of link 1 with these numbers were taken.
fn took(list: &[Sent], numbers: &[u64]) -> bool {
    let mut taken = 0usize;
    let mut good = true;
    for sent in list {
        if sent.took {
            good &= sent.out.arrived == 1 && numbers.get(taken).copied() == Some(sent.out.number);
            taken = taken.wrapping_add(1);
        }
    }
    good && taken == numbers.len()
}

// Whether one that was to be sent was counted as refused by the sink.
fn is_one_less(totals: &Totals, wanted: &Totals) -> bool {
    totals.sent.wrapping_add(1) == wanted.sent
        && totals.dropped[SEND_FAILED] == wanted.dropped[SEND_FAILED].wrapping_add(1)
}

// Whether a sink that couldn't keep a packet failed at it alone, or would have failed there anyway.
fn is_counted(totals: &Totals, wanted: &Totals) -> bool {
    let fails = wanted.dropped[SEND_FAILED] > 0;
    is_one_less(totals, wanted) || (fails && *totals == *wanted)
}

// Whether a sink failed as often as packets were dropped for that.
fn failed_so_often(outcome: &Outcome) -> bool {
    u128::from(outcome.sink.failures()) == outcome.totals.dropped[SEND_FAILED]
}

// Whether all turns went as told, the sink was handed these packets and failed as often as the totals say, and these are
// the totals.
fn is(outcome: &Outcome, numbers: &[u64], wanted: &Totals) -> bool {
    let went = match outcome.sink.told() {
        Some(list) => took(list, numbers) && outcome.totals == *wanted,
        None => is_counted(&outcome.totals, wanted),
    };
    outcome.as_told && failed_so_often(outcome) && went
}

#[test]
fn a_full_processor_pipe_refuses(rt: HostRuntime) {
    let mut plan = plan("RRPRFPF");
    plan.sizes.capacity = 1;
    let outcome = ran(rt, Bands::One, firsts(rt.alloc(), 3), plan);
    assert!(rt; is(&outcome, &[1, 3], &totals(3, 2, FULL_PROCESSOR, 1)));
}

#[test]
fn without_a_buffer_packets_are_dropped(rt: HostRuntime) {
    let mut plan = plan("RRRPFRPF");
    plan.sizes.buffers = 1;
    let outcome = ran(rt, Bands::One, firsts(rt.alloc(), 4), plan);
    assert!(rt; is(&outcome, &[1, 4], &totals(4, 2, NO_BUFFER, 2)));
}

#[test]
fn a_refused_packet_is_dropped(rt: HostRuntime) {
    let mut plan = plan("RRRPPPFFF");
    plan.fails = &[2];
    let outcome = ran(rt, Bands::One, firsts(rt.alloc(), 3), plan);
    assert!(rt; is(&outcome, &[1, 3], &totals(3, 2, SEND_FAILED, 1)));
}

#[test]
fn after_a_closing_mark_a_packet_is_swept(rt: HostRuntime) {
    let outcome = ran(rt, Bands::One, firsts(rt.alloc(), 2), plan("RRPCPFFF"));
    assert!(rt; is(&outcome, &[1], &totals(2, 1, CLOSED, 1)));
}

fn with_a_failure(alloc: Global) -> Result<Vec<Next>, AllocError> {
    let mut answers = firsts(alloc, 1)?;
    answers.push(Next::Failed)?;
    answers.push(datagram(alloc, &FIRST, NEAR, IN_TIME)?)?;
    Ok(answers)
}

#[test]
fn a_failing_source_is_passed_over(rt: HostRuntime) {
    let answers = with_a_failure(rt.alloc());
    let outcome = ran(rt, Bands::One, answers, plan("RrRPPpFFf"));
    assert!(rt; is(&outcome, &[1, 2], &totals(2, 2, 0, 0)));
}

fn is_answer(bytes: &[u8], quote: &[u8]) -> bool {
    let front = with_bytes(ANSWER, MAC_AT, &OTHER_MAC);
    match bytes.strip_prefix(&front[..PAYLOAD_AT]) {
        Some(payload) => match payload.strip_prefix(b"\x04\x34\xe2\xbd\x00\x00\x00\x3c") {
            Some(quoted) => quoted == quote,
            None => false,
        },
        None => false,
    }
}

// Whether a sink took the answer to packet 1 of link 1 alone, which quotes a datagram.
fn answered(list: &[Sent], quote: &[u8]) -> bool {
    match list {
        [sent] => {
            sent.took
                && sent.out.arrived == 1
                && sent.out.number == 1
                && sent.out.answer
                && is_answer(sent.bytes.as_slice(), quote)
        }
        _ => false,
    }
}

// Whether the sink took the answer that quotes a datagram, or couldn't keep it.
fn is_answered(outcome: &Outcome, quote: &[u8]) -> bool {
    let mut wanted = NOTHING;
    wanted.received = 1;
    let went = match outcome.sink.told() {
        Some(list) => {
            wanted.answered = 1;
            answered(list, quote)
        }
        None => {
            wanted.dropped[SEND_FAILED] = 1;
            outcome.sink.failures() == 1
        }
    };
    outcome.as_told && went && outcome.totals == wanted
}

fn only(alloc: Global, next: Result<Next, AllocError>) -> Result<Vec<Next>, AllocError> {
    let mut answers = Vec::new(alloc);
    answers.push(next?)?;
    Ok(answers)
}

#[test]
fn an_expired_packet_is_answered(rt: HostRuntime) {
    let other = with_bytes(FIRST, MAC_AT, &OTHER_MAC);
    let answers = only(rt.alloc(), datagram(rt.alloc(), &other, NEAR, LATE));
    let mut plan = plan("RPSFf");
    plan.sizes.link = 1;
    let outcome = ran(rt, Bands::One, answers, plan);
    assert!(rt; is_answered(&outcome, &other));
}

fn with_an_urgent_one(alloc: Global) -> Result<Vec<Next>, AllocError> {
    let urgent = with_bytes(FIRST, 0, b"\x0b\x80\x00\x01");
    let mut answers = firsts(alloc, 1)?;
    answers.push(datagram(alloc, &urgent, NEAR, IN_TIME)?)?;
    Ok(answers)
}

#[test]
fn the_high_band_goes_first(rt: HostRuntime) {
    let answers = with_an_urgent_one(rt.alloc());
    let outcome = ran(rt, Bands::Two, answers, plan("RRPPFF"));
    assert!(rt; is(&outcome, &[2, 1], &totals(2, 2, 0, 0)));
}
