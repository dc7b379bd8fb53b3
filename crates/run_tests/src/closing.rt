//! Links that close while packets wait, and a router that ends while its pipes are full. Each packet and each
//! order waits for its cue, so all runs are the same.

use crate::cues::Cue::{High, Low};
use crate::cues::{Cue, Order};
use crate::play::{Played, run};
use crate::routers::{CAPACITY_2, CAPACITY_64, TWO_BANDS_2, TWO_BANDS_64};
use crate::setup::Setup;
use process_packet::Totals;
use router_run::CloseFault;
use stages_tests::{CLOSED, FULL_PROCESSOR, totals};
use std::test::*;
use worker_parts::Sent;

// Whether a sink was handed the packets of these numbers, in this order.
fn are_numbered(list: &[Sent], numbers: &[u64]) -> bool {
    let mut list = list;
    for number in numbers {
        match list {
            [sent, rest @ ..] if sent.out.number == *number => list = rest,
            _ => return false,
        }
    }
    list.is_empty()
}

// Whether a run went as its orders say and counted this, and link 2's sink alone was handed packets: those of
// these numbers.
fn came_to(played: Option<Played>, totals: Totals, numbers: &[u64]) -> bool {
    let Some(played) = played else {
        return false;
    };
    match played.told(2) {
        Some(list) => are_numbered(list, numbers) && played.tells(totals, &[0, 0, totals.sent, 0]),
        None => false,
    }
}

/// The sink holds packet 1, and 2 and 3 fill the link's pipe, when the closing mark is refused. Packet 4 is
/// admitted once the mark is there.
#[test]
fn close_while_full(rt: HostRuntime) {
    const CUES: [Cue; 4] = [Low(0, 0, 0), Low(1, 1, 0), Low(2, 1, 0), Low(3, 3, 2)];
    const ORDERS: [Order; 6] = [
        Order::Asked(4),
        Order::Close(2, Err(CloseFault::Full)),
        Order::Phase(1),
        Order::CloseAtLast(2),
        Order::Close(2, Err(CloseFault::AlreadyClosed)),
        Order::Phase(2),
    ];
    let played = run(rt, Setup::cued(rt, CAPACITY_2, &CUES, &ORDERS));
    assert!(rt; came_to(played, totals(4, 3, CLOSED, 1), &[1, 2, 3]));
}

/// The low band's mark is refused, and the high band's is there all the same: the urgent packet, which is
/// admitted then, is swept, while all those of the low band are sent.
#[test]
fn close_while_one_band_is_full(rt: HostRuntime) {
    const CUES: [Cue; 4] = [Low(0, 0, 0), Low(1, 1, 0), Low(2, 1, 0), High(3, 0, 1)];
    const ORDERS: [Order; 5] = [
        Order::Asked(4),
        Order::Close(2, Err(CloseFault::Full)),
        Order::Phase(1),
        Order::CloseAtLast(2),
        Order::Close(2, Err(CloseFault::AlreadyClosed)),
    ];
    let played = run(rt, Setup::cued(rt, TWO_BANDS_2, &CUES, &ORDERS));
    assert!(rt; came_to(played, totals(4, 3, CLOSED, 1), &[1, 2, 3]));
}

/// A link is closed once, and a link that isn't there never. What comes for the closed one is swept, in both
/// of its bands.
#[test]
fn a_closed_link_sends_nothing(rt: HostRuntime) {
    const CUES: [Cue; 3] = [Low(0, 0, 1), High(0, 0, 1), Low(0, 0, 1)];
    const ORDERS: [Order; 6] = [
        Order::Passed(3),
        Order::Close(9, Err(CloseFault::Unknown)),
        Order::Close(2, Ok(())),
        Order::Close(2, Err(CloseFault::AlreadyClosed)),
        Order::Close(9, Err(CloseFault::Unknown)),
        Order::Phase(1),
    ];
    let played = run(rt, Setup::cued(rt, CAPACITY_64, &CUES, &ORDERS));
    assert!(rt; came_to(played, totals(3, 0, CLOSED, 3), &[]));
    let played = run(rt, Setup::cued(rt, TWO_BANDS_64, &CUES, &ORDERS));
    assert!(rt; came_to(played, totals(3, 0, CLOSED, 3), &[]));
}

/// While the sink holds packet 1 the others come to their pipes. The urgent one is the next that it is handed.
#[test]
fn the_high_band_goes_first(rt: HostRuntime) {
    const CUES: [Cue; 5] = [
        Low(0, 0, 0),
        Low(1, 1, 0),
        Low(2, 1, 0),
        High(3, 1, 0),
        Low(4, 1, 0),
    ];
    const ORDERS: [Order; 2] = [Order::Asked(5), Order::Phase(1)];
    let played = run(rt, Setup::cued(rt, TWO_BANDS_64, &CUES, &ORDERS));
    assert!(rt; came_to(played, totals(5, 5, CLOSED, 0), &[1, 4, 2, 3, 5]));
}

/// The sink holds packet 1, 2 and 3 fill the link's pipe, 4 is in the processor's hand, 5 and 6 fill its pipe,
/// and 7 was refused there, when the router is told to end. All but 7 are sent.
#[test]
fn full_pipes_are_emptied_at_the_end(rt: HostRuntime) {
    const CUES: [Cue; 7] = [
        Low(0, 0, 0),
        Low(1, 1, 0),
        Low(2, 1, 0),
        Low(3, 3, 1),
        Low(4, 3, 1),
        Low(4, 4, 1),
        Low(4, 0, 0),
    ];
    const ORDERS: [Order; 2] = [Order::Passed(7), Order::Phase(1)];
    let played = run(rt, Setup::cued(rt, CAPACITY_2, &CUES, &ORDERS));
    assert!(rt; came_to(played, totals(7, 6, FULL_PROCESSOR, 1), &[1, 2, 3, 4, 5, 6]));
}
