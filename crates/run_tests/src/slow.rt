//! More to answer than the slow path's pipe holds.

use crate::play::{Played, run};
use crate::reports::{adds_up, sent_by};
use crate::routers::CAPACITY_1;
use crate::setup::{OPEN, Setup};
use crate::sink::Taking;
use crate::source::{ENDED, Plan};
use sample_packets::{FIRST, MAC_AT, with_bytes};
use stages_tests::{FULL_SLOW_PATH, NEAR};
use std::test::*;

/// How many datagrams come by link 1, each with a wrong MAC.
const DATAGRAMS: u64 = 2000;

/// How often they come again, at most, until the slow path's pipe was full: nothing can hold it up.
const RUNS: u32 = 100;

fn flood(rt: HostRuntime) -> Option<Setup> {
    let wrong = with_bytes(FIRST, MAC_AT, &[0; 6]);
    let plans = (Plan::Flows(DATAGRAMS, NEAR, wrong), ENDED);
    Setup::of_four(rt, CAPACITY_1, plans, Taking::Counts, OPEN)
}

// How many requests were refused at the slow path's pipe, where each datagram was answered by link 1, or dropped at a
// full pipe or for want of a buffer.
fn refused(played: Option<Played>) -> Option<u128> {
    let report = played?.report;
    let totals = &report.totals;
    let is_whole = adds_up(totals, u128::from(DATAGRAMS))
        && totals.sent == 0
        && sent_by(&report, &[0, totals.answered, 0, 0]);
    if is_whole {
        Some(totals.dropped[FULL_SLOW_PATH])
    } else {
        None
    }
}

#[test]
fn a_full_slow_path_is_counted(rt: HostRuntime) {
    let mut count = 0;
    for _ in 0..RUNS {
        count = refused(run(rt, flood(rt))).expect(&rt, "a report that adds up");
        if count > 0 {
            break;
        }
    }
    assert!(rt; count > 0);
}
