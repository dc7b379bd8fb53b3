//! A run of the router, from its start to its end.

ghost use Rattle.std.specs.Prelude.{◌≡◌, ◌+◌, ◌*◌, Some};
ghost use Rattle.router_rules.specs.Links.{link_count};

use crate::cues::{LOOKS, Order, Words};
use crate::reports;
use crate::setup::{Devices, Setup};
use crate::sink::PlannedSink;
use crate::source::PlannedSource;
use crossbeam_utils::Backoff;
use packet_ledger::Blank;
use process_packet::Totals;
use router_run::{CloseFault, Report, Running, StartFault};
use std::marker::Brand;
use std::rt::Clock;
use std::sync::Wait;
use std::sync::atomic::Ordering;
use std::thread::Threads;
use worker_parts::{Gate, RunBrand, Sent, Sink, Source};

/// What came of a run.
#[derive(Drop)]
pub struct Played {
    pub report: Report<PlannedSource, PlannedSink>,
    /// Whether all went as the orders say.
    pub as_told: bool,
    /// How many packets met at the gate.
    pub met: u64,
}

impl Played {
    /// Whether all went as the orders say, it counted this, and the links' sinks took so many.
    pub fn tells(&self, totals: Totals, counts: &[u128]) -> bool {
        self.as_told && reports::tells(&self.report, &totals, counts)
    }

    /// What a link's sink was handed; none where there is no such link, or the sink didn't keep it all.
    pub fn told(&self, link: usize) -> Option<&[Sent]> {
        match self.report.sinks.get(link) {
            Some(sink) => sink.told(),
            None => None,
        }
    }
}

/// Whether there was a run, and it tells this.
pub fn tells(played: Option<Played>, totals: Totals, counts: &[u128]) -> bool {
    match played {
        Some(played) => played.tells(totals, counts),
        None => false,
    }
}

/// What came of a start, and what came back of a refused one.
pub type Started = Result<Played, StartFault<PlannedSource, PlannedSink>>;

// What closes links, of whichever devices it is.
trait Closing {
    fn close(&mut self, link: u16) -> Result<(), CloseFault>;
}

impl<N, S, K, G, R> Closing for Running<N, S, K, G, R>
where
    N: RunBrand,
    S: Source + Drop,
    K: Sink + Drop,
    G: Gate + Drop,
    R: Threads + Wait + Clock + Copy,
{
    fn close(&mut self, link: u16) -> Result<(), CloseFault> {
        self.close_link(link)
    }
}

// Closes a link again and again, until its marks are there.
fn close_at_last<C: Closing>(running: &mut C, words: &Words, link: u16) -> bool {
    let backoff = Backoff::new();
    for _ in 0..LOOKS {
        match running.close(link) {
            Ok(()) => return true,
            Err(CloseFault::Full) => words.pause(&backoff),
            Err(_) => return false,
        }
    }
    false
}

// Whether it went as the order says.
fn obey<C: Closing>(running: &mut C, words: &Words, order: Order) -> bool {
    match order {
        Order::Passed(count) => words.comes(&words.passed, count),
        Order::Asked(number) => words.comes(&words.asked, number),
        Order::Handed(count) => words.comes(&words.handed, count),
        Order::Phase(phase) => {
            words.phase.store(phase, Ordering::SeqCst);
            true
        }
        Order::Close(link, wanted) => running.close(link) == wanted,
        Order::CloseAtLast(link) => close_at_last(running, words, link),
    }
}

fn obey_all<C: Closing>(running: &mut C, words: &Words, orders: &[Order]) -> bool {
    let mut as_told = true;
    for order in orders {
        as_told &= obey(running, words, *order);
    }
    as_told
}

fn play<N, R>(rt: R, blank: Blank, setup: Setup) -> Started
where
    N: RunBrand + Send + Sync + 'static,
    R: Threads + Wait + Clock + Copy + Send + 'static,
    requires name { blank.table ≡ N.table }
    requires config { N.config ≡ Some setup.config }
    requires workers { N.workers ≡ 2 * link_count setup.config + setup.config.processors + 1 }
{
    let Setup {
        config,
        devices,
        gate,
        lead,
    } = setup;
    let Devices { sources, sinks } = devices;
    let alloc = lead.words.alloc();
    match router_run::start::<N, _, _, _, R>(rt, alloc, blank, config, sources, sinks, gate) {
        Ok(mut running) => {
            let as_told = obey_all(&mut running, &lead.words, lead.orders);
            let report = running.finish(None);
            Ok(Played {
                report,
                as_told,
                met: lead.words.met.load(Ordering::SeqCst),
            })
        }
        Err(fault) => Err(fault),
    }
}

/// Starts a router, does what the orders say, and ends it.
pub fn start<R>(rt: R, setup: Setup) -> Started
where
    R: Threads + Wait + Clock + Copy + Send + 'static,
{
    match Blank::new(setup.lead.words.alloc()) {
        Ok(blank) => play::<Brand, R>(rt, blank, setup),
        Err(_) => {
            let Devices { sources, sinks } = setup.devices;
            Err(StartFault::NoMemory { sources, sinks })
        }
    }
}

/// The same; none where there is no setup, or the router was not started.
pub fn run<R>(rt: R, setup: Option<Setup>) -> Option<Played>
where
    R: Threads + Wait + Clock + Copy + Send + 'static,
{
    start(rt, setup?).ok()
}
