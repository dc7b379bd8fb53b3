//! What a router without datagrams, one with a single one, and failing devices come to.

use crate::play::{Played, run, tells};
use crate::reports::all_sent;
use crate::routers::{CAPACITY_4, CAPACITY_64};
use crate::setup::{OPEN, Setup};
use crate::sink::Taking;
use crate::source::{ENDED, FAILS, Plan};
use sample_packets::{FIRST, PATH_AT, with_bytes};
use stages_tests::{NOTHING, SEND_FAILED, totals};
use std::test::*;
use worker_parts::{Sent, Sink, Source};

/// Where the identifier of the first datagram's segment is.
const SEGMENT_AT: usize = 42;

#[test]
fn ended_sources_count_nothing(rt: HostRuntime) {
    let played = run(rt, Setup::of(rt, CAPACITY_4, ENDED));
    assert!(rt; tells(played, NOTHING, &[0; 4]));
}

// Whether the first datagram of link 1 was taken, as it leaves: one hop further, and its identifier chained.
fn is_first(sent: &Sent) -> bool {
    let moved = with_bytes(FIRST, PATH_AT, &[0x02]);
    let wanted = with_bytes(moved, SEGMENT_AT, &[0x1c, 0x52]);
    let out = &sent.out;
    sent.took
        && out.arrived == 1
        && out.number == 1
        && !out.answer
        && out.to.is_none()
        && sent.bytes.as_slice() == wanted.as_slice()
}

// Whether the first datagram alone crossed, to link 2.
fn crosses(played: Option<Played>) -> bool {
    let Some(played) = played else {
        return false;
    };
    match played.told(2) {
        Some([sent]) => is_first(sent) && played.tells(all_sent(1), &[0, 0, 1, 0]),
        _ => false,
    }
}

#[test]
fn the_first_datagram_crosses(rt: HostRuntime) {
    let played = run(rt, Setup::of(rt, CAPACITY_64, Plan::Failing(1, 0)));
    assert!(rt; crosses(played));
}

// Whether nothing was counted, and all sources failed.
fn gave_nothing(played: Option<Played>) -> bool {
    let Some(played) = played else {
        return false;
    };
    for source in &played.report.sources {
        if source.failures() == 0 {
            return false;
        }
    }
    played.tells(NOTHING, &[0; 4])
}

#[test]
fn sources_that_always_fail_give_nothing(rt: HostRuntime) {
    let setup = Setup::of_four(rt, CAPACITY_4, (FAILS, FAILS), Taking::Counts, OPEN);
    assert!(rt; gave_nothing(run(rt, setup)));
}

#[test]
fn a_failure_is_no_datagram(rt: HostRuntime) {
    let played = run(rt, Setup::of(rt, CAPACITY_64, Plan::Failing(2, 1)));
    assert!(rt; tells(played, all_sent(2), &[0, 0, 2, 0]));
}

// Whether 20 datagrams were dropped, at as many failures of link 2's sink.
fn was_refused(played: Option<Played>) -> bool {
    let Some(played) = played else {
        return false;
    };
    match played.report.sinks.get(2) {
        Some(sink) => {
            sink.failures() == 20 && played.tells(totals(20, 0, SEND_FAILED, 20), &[0; 4])
        }
        None => false,
    }
}

#[test]
fn a_sink_that_always_refuses_is_counted(rt: HostRuntime) {
    let plans = (Plan::Failing(20, 0), ENDED);
    let setup = Setup::of_four(rt, CAPACITY_64, plans, Taking::Keeps(20), OPEN);
    assert!(rt; was_refused(run(rt, setup)));
}
