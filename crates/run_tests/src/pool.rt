//! A router that takes all its memory at its start, and what a refused start gives back.

use crate::cues::{Order, Words};
use crate::gate::Rule;
use crate::play::{Played, Started, start};
use crate::reports::all_sent;
use crate::routers::{CAPACITY_64, FEW_BUFFERS, router};
use crate::setup::{Course, Devices, OPEN, Setup, sinks};
use crate::sink::Taking;
use crate::source::{ENDED, Plan, PlannedSource};
use router_run::StartFault;
use std::alloc::{AllocError, Global};
use std::rt::Clock;
use std::sync::atomic::Ordering;
use std::sync::{Arc, Wait};
use std::test::*;
use std::thread::Threads;
use worker_parts::both;

const ORDERS: [Order; 1] = [Order::Handed(1000)];

// A thousand datagrams, and orders to wait for them.
fn thousand(rt: HostRuntime) -> Option<Setup> {
    let plans = (Plan::Paced(1000), ENDED);
    let course = Course {
        rule: Rule::Open,
        orders: &ORDERS,
    };
    Setup::of_four(rt, FEW_BUFFERS, plans, Taking::Counts, course)
}

/// What was refused memory, or a thread.
#[derive(Debug, Drop)]
enum Refused {
    /// The router's configuration, or its devices.
    Setup,
    /// The start, which gave all devices back.
    Start,
    /// A thread, with which the devices went.
    Thread,
}

// Whether no source was asked, and no sink was handed a packet.
fn are_idle(words: &Words) -> bool {
    words.tried.load(Ordering::SeqCst) == 0 && words.handed.load(Ordering::SeqCst) == 0
}

// Whether a router sent all that it was given.
fn sent_all(played: &Played) -> bool {
    played.tells(all_sent(1000), &[0, 0, 1000, 0])
}

// The refusal, where it left things so.
fn refused_if(is_so: bool, refused: Refused) -> Option<Result<(), Refused>> {
    if is_so { Some(Err(refused)) } else { None }
}

// What was refused to a start, or that all was sent; none where it came to something else, or where a device was asked
// for all that.
fn ended(words: &Words, started: Started) -> Option<Result<(), Refused>> {
    match started {
        Ok(played) => {
            if sent_all(&played) {
                Some(Ok(()))
            } else {
                None
            }
        }
        Err(StartFault::NoMemory { sources, sinks }) => {
            let back = Devices { sources, sinks };
            refused_if(are_unasked(words, &back, (4, 4)), Refused::Start)
        }
        Err(StartFault::Thread) => refused_if(are_idle(words), Refused::Thread),
        Err(StartFault::Count { .. }) => None,
    }
}

/// Neither the devices nor the router take memory after the start: the first growth past those of `start` may be
/// refused, and all is sent. `tests/faults/growths.py` refuses each of those before.
#[test]
fn a_thousand_datagrams_take_no_memory(rt: HostRuntime) -> Result<(), Refused> {
    let setup = thousand(rt).ok_or(Refused::Setup)?;
    let Ok(words) = Arc::try_clone(&setup.lead.words) else {
        return Err(Refused::Setup);
    };
    ended(&words, start(rt, setup)).expect(&rt, "all sent, or devices that were not asked")
}

// So many sources, of which link 1's gives a datagram, and so many sinks.
fn counted(words: &Arc<Words, Global>, counts: (usize, usize)) -> Option<Devices> {
    Devices::new(words, counts, (Plan::Paced(1), ENDED), Taking::Counts)
}

fn started<R>(rt: R, words: &Arc<Words, Global>, devices: Option<Devices>) -> Option<Started>
where
    R: Threads + Wait + Clock + Copy + Send + 'static,
{
    let setup = Setup::over(words, router(words.alloc(), CAPACITY_64), devices, OPEN)?;
    Some(start(rt, setup))
}

// Whether so many sources and sinks are there, and none was asked.
fn are_unasked(words: &Words, devices: &Devices, counts: (usize, usize)) -> bool {
    are_idle(words) && devices.sources.len() == counts.0 && devices.sinks.len() == counts.1
}

// The devices that came back for their wrong count, where so many are there, and none was asked.
fn back(words: &Words, started: Option<Started>, counts: (usize, usize)) -> Option<Devices> {
    match started? {
        Err(StartFault::Count { sources, sinks }) => {
            let devices = Devices { sources, sinks };
            if are_unasked(words, &devices, counts) {
                Some(devices)
            } else {
                None
            }
        }
        _ => None,
    }
}

// One source more, which gives nothing.
fn with_source(
    words: &Arc<Words, Global>,
    sources: Vec<PlannedSource>,
) -> Result<Vec<PlannedSource>, AllocError> {
    let mut sources = sources;
    sources.push(PlannedSource::new(words, ENDED)?)?;
    Ok(sources)
}

// The same sources and one more, and five sinks.
fn grown(words: &Arc<Words, Global>, devices: Option<Devices>) -> Option<Devices> {
    let sources = with_source(words, devices?.sources);
    let (sources, sinks) = both(sources, sinks(words, 5, Taking::Counts)).ok()?;
    Some(Devices { sources, sinks })
}

// The same without the last sink.
fn smaller(devices: Option<Devices>) -> Option<Devices> {
    let mut devices = devices?;
    drop(devices.sinks.pop());
    Some(devices)
}

// Whether the datagram crossed.
fn crosses(started: Option<Started>) -> bool {
    match started {
        Some(Ok(played)) => played.tells(all_sent(1), &[0, 0, 1, 0]),
        _ => false,
    }
}

/// With a source too few, and with a sink too many, both lists come back, and then serve a router.
#[test]
fn a_refused_start_gives_both_lists_back(rt: HostRuntime) {
    let words = Words::new(rt).expect(&rt, "memory");
    let few = started(rt, &words, counted(&words, (3, 4)));
    let few = back(&words, few, (3, 4));
    let many = started(rt, &words, grown(&words, few));
    let many = back(&words, many, (4, 5));
    assert!(rt; crosses(started(rt, &words, smaller(many))));
}
