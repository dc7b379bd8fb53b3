//! Two processors that meet at a gate.

use crate::gate::Rule;
use crate::play::{Played, run};
use crate::reports::all_sent;
use crate::routers::TWO_PROCESSORS;
use crate::setup::{Course, Setup};
use crate::sink::Taking;
use crate::source::{ENDED, Plan};
use sample_packets::FIRST;
use stages_tests::NEAR;
use std::test::*;

// A datagram of each of two flows, each of which waits for the meeting.
fn two_flows(rt: HostRuntime) -> Option<Setup> {
    let plans = (Plan::Flows(2, NEAR, FIRST), ENDED);
    let course = Course {
        rule: Rule::Meeting,
        orders: &[],
    };
    Setup::of_four(rt, TWO_PROCESSORS, plans, Taking::Keeps(0), course)
}

// Whether both packets met at the gate and were sent.
fn have_met(played: Option<Played>) -> bool {
    match played {
        Some(played) => played.met == 2 && played.tells(all_sent(2), &[0, 0, 2, 0]),
        None => false,
    }
}

/// Two flows are decided by two processors, each of which sees that the other is at work.
#[test]
fn gate_two_processors(rt: HostRuntime) {
    assert!(rt; have_met(run(rt, two_flows(rt))));
}
