//! Times packets through a receiver, a processor and a forwarder, which take turns in one thread, for
//! `make bench-stages`: prints the tenths of a nanosecond that one packet took in the middle one of its tries, and a sum
//! of what left. Where `BENCH` isn't set in the environment it times nothing.

ghost use Rattle.std.specs.Prelude.{◌≡◌, Some};
ghost use Rattle.std.specs.Arc.{arc_value};
ghost use Rattle.router_rules.specs.Links.{link_count};

use crate::flows::{Flows, Sums};
use crate::run::{Sizes, Workers};
use crate::sample_router::router;
use crate::start::start;
use packet_ledger::{Blank, Book};
use process_packet::Bands;
use router_rules::Shared;
use std::alloc::Global;
use std::marker::Brand;
use std::process::Abort;
use std::rt::Clock;
use std::sync::{Arc, Wait};
use std::time::Instant;
use std::{env, io};
use worker_forwarder::Forwarder;
use worker_parts::{RunBrand, Turns};

// How many packets each worker passes on before the next one takes its turns.
const BATCH: usize = 64;

// How many batches are timed at once.
const BATCHES: u32 = 400;

// How many times that is done.
const TRIES: usize = 61;

// What comes by link 1 leaves by link 2.
const SIZES: Sizes = Sizes {
    link: 2,
    buffers: 256,
    capacity: 256,
};

// Each worker passes a batch of packets on, as the loop of a thread lets it.
fn pass_batch<N: RunBrand, R: Wait>(rt: &R, workers: &mut Workers<N, Flows, Sums>) {
    for _ in 0..BATCH {
        if workers.receiver.has_room() {
            let _ = workers.receiver.turn(rt);
        }
    }
    for _ in 0..BATCH {
        if workers.processor.has_room() {
            let _ = workers.processor.turn(rt);
        }
    }
    for _ in 0..BATCH {
        if workers.forwarder.has_room() {
            let _ = workers.forwarder.turn(rt);
        }
    }
}

// The tenths of a nanosecond of a packet.
fn tenths_once<N: RunBrand, R: Abort + Wait + Clock>(
    rt: &R,
    workers: &mut Workers<N, Flows, Sums>,
) -> u128 {
    let start = Instant::now(rt).expect(rt, "clock");
    for _ in 0..BATCHES {
        pass_batch(rt, workers);
    }
    let spent = start.elapsed(rt).expect(rt, "clock").as_nanos();
    spent.saturating_mul(10) / (u128::from(BATCHES) * BATCH as u128)
}

// The tenths of a nanosecond of a packet, in the middle one of the tries.
fn tenths<N: RunBrand, R: Abort + Wait + Clock>(
    rt: &R,
    alloc: Global,
    workers: &mut Workers<N, Flows, Sums>,
) -> u128 {
    let mut figures = Vec::new(alloc);
    for _ in 0..TRIES {
        figures.push(tenths_once(rt, workers)).expect(rt, "memory");
    }
    figures.sort().expect(rt, "memory");
    figures.get(TRIES / 2).copied().unwrap_or(0)
}

// The sum of what left by a forwarder.
fn sum_of<N: RunBrand>(forwarder: Forwarder<N, Sums>) -> u64 {
    let sink = forwarder.into_parts().sink;
    sink.sum()
}

// The sum of what left.
fn sum_left<N: RunBrand>(workers: Workers<N, Flows, Sums>) -> u64 {
    let Workers {
        receiver,
        processor,
        slow_path,
        forwarder,
        controller,
    } = workers;
    drop(receiver);
    drop(processor);
    drop(slow_path);
    drop(controller);
    sum_of(forwarder)
}

// The tenths, and the sum of what left.
fn time_workers<N: RunBrand, R: Abort + Wait + Clock>(
    rt: &R,
    alloc: Global,
    workers: Workers<N, Flows, Sums>,
) -> (u128, u64) {
    let mut workers = workers;
    let spent = tenths(rt, alloc, &mut workers);
    (spent, sum_left(workers))
}

// The same of the workers of a router that has this name.
fn time<N: RunBrand, R: Abort + Wait + Clock>(
    rt: &R,
    alloc: Global,
    blank: Blank,
    shared: Arc<Shared, Global>,
) -> (u128, u64)
    requires name { blank.table ≡ N.table }
    requires workers { N.workers ≡ 4 }
    requires config { N.config ≡ Some (arc_value shared).config }
    requires small { (link_count (arc_value shared).config ≡ 4) × ((arc_value shared).config.processors ≡ 1) }
{
    let (_, shares) = Book::<N>::new(alloc, blank, 4).expect(rt, "memory");
    let workers = start(rt, alloc, &shared, Flows::new(), Sums::new(), SIZES, shares);
    time_workers(rt, alloc, workers)
}

// The same of a router of four links and one processor.
fn time_router<R: Abort + Wait + Clock>(rt: &R, alloc: Global) -> (u128, u64) {
    let config = router(alloc, Bands::One).expect(rt, "memory");
    let shared = Arc::new(alloc, Shared::new(config)).expect(rt, "memory");
    let blank = Blank::new(alloc).expect(rt, "memory");
    time::<Brand, R>(rt, alloc, blank, shared)
}

#[test]
fn three_workers(rt: HostRuntime) -> io::Result<()> {
    if env::var(&rt, "BENCH").is_ok() {
        let (spent, sum) = time_router(&rt, rt.alloc());
        println!(rt; "{spent} {sum}")?;
    }
    Ok(())
}
