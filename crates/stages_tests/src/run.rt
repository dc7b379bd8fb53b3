//! A run of workers, turn by turn.

ghost use Rattle.std.specs.Prelude.{◌≡◌, ◌<◌, ◌≤◌, Some, length};
ghost use Rattle.std.specs.Arc.{arc_value};
ghost use Rattle.router_rules.specs.Links.{link_count};

use crate::letters::was;
use crate::open_gate::Open;
use crate::start::start;
use packet_ledger::{Blank, Book, Share};
use process_packet::Totals;
use router_rules::Shared;
use ruled_pipe::{Mark, Producer};
use std::alloc::Global;
use std::marker::Brand;
use std::process::Abort;
use std::sync::{Arc, Wait};
use worker_forwarder::Forwarder;
use worker_parts::{EgressPacket, ListSink, ListSource, Next, RunBrand, Sink, Source, Turns};
use worker_processor::{Processor, SlowPath};
use worker_receiver::Receiver;

/// What the workers are made of.
#[derive(Clone, Copy)]
pub struct Sizes {
    /// The link of the forwarder: 1 or 2.
    pub link: u16,
    /// How many free buffers there are beside the receiver's, up to 256.
    pub buffers: usize,
    /// How many entries each pipe holds, up to 65,536.
    pub capacity: usize,
}

/// What a run is given beside the source's answers.
#[derive(Clone, Copy)]
pub struct Plan {
    pub sizes: Sizes,
    /// At which of its calls the sink fails.
    pub fails: &'static [u64],
    /// A letter a turn: R for the receiver, P the processor, S the slow path, F the forwarder; a small letter
    /// where it is to be quiet. At C a closing mark is pushed into the pipe of the forwarder's low band.
    pub turns: &'static str,
}

/// What came of it.
#[derive(Drop)]
pub struct Outcome {
    pub totals: Totals,
    pub sink: ListSink,
    /// Whether each turn went as its letter says.
    pub as_told: bool,
}

/// The workers, and the end by which the forwarder's pipe is closed.
#[derive(Drop)]
pub struct Workers<N: RunBrand, S: Source, K: Sink> {
    pub receiver: Receiver<N, S>,
    pub processor: Processor<N, Open>,
    pub slow_path: SlowPath<N>,
    pub forwarder: Forwarder<N, K>,
    pub controller: Producer<EgressPacket<N>>,
}

impl<N: RunBrand> Workers<N, ListSource, ListSink> {
    fn turn<R: Wait>(&mut self, rt: &R, letter: u8) -> bool {
        match letter.to_ascii_uppercase() {
            b'R' => self.receiver.has_room() && was(self.receiver.turn(rt), letter),
            b'P' => self.processor.has_room() && was(self.processor.turn(rt), letter),
            b'S' => self.slow_path.has_room() && was(self.slow_path.turn(rt), letter),
            b'F' => self.forwarder.has_room() && was(self.forwarder.turn(rt), letter),
            _ => self.controller.mark(rt, Mark::Close).is_ok(),
        }
    }

    fn turns<R: Wait>(&mut self, rt: &R, letters: &str) -> bool {
        let mut as_told = true;
        for letter in letters.bytes() {
            as_told &= self.turn(rt, letter);
        }
        as_told
    }
}

fn share_of_receiver<N: RunBrand>(worker: Receiver<N, ListSource>) -> Share<N> {
    worker.into_parts().share
}

fn share_of_processor<N: RunBrand>(worker: Processor<N, Open>) -> Share<N> {
    worker.into_parts().share
}

fn share_of_slow_path<N: RunBrand>(worker: SlowPath<N>) -> Share<N> {
    worker.into_parts().share
}

fn sink_and_share<N: RunBrand>(worker: Forwarder<N, ListSink>) -> (ListSink, Share<N>) {
    let parts = worker.into_parts();
    (parts.sink, parts.share)
}

// What is left of the workers: the sink and their counts.
fn parts_of<N: RunBrand, R: Abort>(
    rt: &R,
    alloc: Global,
    workers: Workers<N, ListSource, ListSink>,
) -> (ListSink, Vec<Share<N>>)
    ensures { length result.1.items ≡ 4 }
{
    let a = share_of_receiver(workers.receiver);
    let b = share_of_processor(workers.processor);
    let c = share_of_slow_path(workers.slow_path);
    let (sink, d) = sink_and_share(workers.forwarder);
    let shares = Vec::from_array(alloc, [a, b, c, d]).expect(rt, "memory");
    (sink, shares)
}

fn play<N: RunBrand, R: Abort + Wait>(
    rt: &R,
    alloc: Global,
    blank: Blank,
    shared: Arc<Shared, Global>,
    answers: Vec<Next>,
    plan: Plan,
) -> Outcome
    requires name { blank.table ≡ N.table }
    requires workers { N.workers ≡ 4 }
    requires config { N.config ≡ Some (arc_value shared).config }
    requires small { (link_count (arc_value shared).config ≡ 4) × ((arc_value shared).config.processors ≡ 1) }
    requires capacity { (0 < plan.sizes.capacity) × (plan.sizes.capacity ≤ 65536) }
{
    let (book, shares) = Book::<N>::new(alloc, blank, 4).expect(rt, "memory");
    let source = ListSource::new(answers);
    let fails = Vec::from_slice(alloc, plan.fails).expect(rt, "memory");
    let sink = ListSink::new(alloc, fails);
    let mut workers = start(rt, alloc, &shared, source, sink, plan.sizes, shares);
    let as_told = workers.turns(rt, plan.turns);
    let (sink, shares) = parts_of(rt, alloc, workers);
    Outcome {
        totals: book.close(rt, shares),
        sink,
        as_told,
    }
}

/// Runs the workers of a router with this configuration, of four links and one processor.
pub fn run<R: Abort + Wait + Copy>(
    rt: R,
    alloc: Global,
    shared: Shared,
    answers: Vec<Next>,
    plan: Plan,
) -> Outcome
    requires { (link_count shared.config ≡ 4) × (shared.config.processors ≡ 1) }
{
    assert!(rt; plan.sizes.capacity > 0 && plan.sizes.capacity <= 65536);
    let shared = Arc::new(alloc, shared).expect(&rt, "memory");
    let blank = Blank::new(alloc).expect(&rt, "memory");
    play::<Brand, R>(&rt, alloc, blank, shared, answers, plan)
}
