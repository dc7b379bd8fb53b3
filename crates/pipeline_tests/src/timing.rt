//! Times items through a pipe between threads, for `make bench-pipe`: each test prints the tenths of a nanosecond
//! that one item took in the middle one of its rounds. Where `BENCH` isn't set in the environment it times nothing.

ghost use Rattle.std.specs.Prelude.{◌<◌, ◌≤◌, length};

use crossbeam_utils::Backoff;
use ruled_pipe::{Consumer, Full, Load, Pipe, Producer};
use std::alloc::Global;
use std::process::Abort;
use std::rt::Clock;
use std::sync::atomic::{AtomicUsize, Ordering};
use std::sync::{Arc, Wait};
use std::thread::{JoinHandle, Threads};
use std::time::Instant;
use std::{env, hint, io, thread};

// How many entries the pipe holds.
const CAPACITY: usize = 1024;

// How many items pass in a round.
const ITEMS: usize = 8192;

// How many rounds are timed.
const ROUNDS: usize = 61;

// The bytes of a buffer.
const BUFFER: usize = 9217;

// Waits until all threads have come, so that they run side by side from the first item on.
fn meet<R: Wait>(rt: &R, come: &AtomicUsize, count: usize) {
    come.fetch_add(1, Ordering::SeqCst);
    for _ in rt.forever() {
        if come.load(Ordering::SeqCst) >= count {
            return;
        }
        hint::spin_loop();
    }
    unreachable!()
}

fn offer_one<T: Drop, R: Wait>(rt: &R, producer: &mut Producer<T>, item: T) {
    let backoff = Backoff::new();
    let mut item = item;
    for _ in rt.forever() {
        match producer.offer(rt, item) {
            Ok(()) => return,
            Err(Full(back)) => item = back,
        }
        backoff.snooze();
    }
    unreachable!()
}

fn offer_all<T: Drop, R: Wait>(rt: &R, mut producer: Producer<T>, items: Vec<T>) {
    for item in items {
        offer_one(rt, &mut producer, item);
    }
}

fn take_one<T: Drop, R: Wait>(rt: &R, consumer: &mut Consumer<T>) -> Option<T> {
    let backoff = Backoff::new();
    for _ in rt.forever() {
        if let Some(entry) = consumer.take(rt) {
            return match entry.load {
                Load::Payload(item) => Some(item),
                Load::Marked(_) => None,
            };
        }
        backoff.snooze();
    }
    unreachable!()
}

// Takes a number of items, and keeps them.
fn take_all<T: Drop, R: Wait + Abort>(
    rt: &R,
    consumer: &mut Consumer<T>,
    count: usize,
    kept: &mut Vec<T>,
) {
    for _ in 0..count {
        if let Some(item) = take_one(rt, consumer) {
            kept.push(item).expect(rt, "memory");
        }
    }
}

// Moves a number of the items to a list of their own.
fn split_off<T: Drop, R: Abort>(rt: &R, alloc: Global, items: &mut Vec<T>, count: usize) -> Vec<T> {
    let mut split = Vec::with_capacity(alloc, count).expect(rt, "memory");
    for _ in 0..count {
        if let Some(item) = items.pop() {
            split.push(item).expect(rt, "memory");
        }
    }
    split
}

// Starts a thread that offers the items, once all threads have come.
fn start_one<T, R>(
    rt: R,
    producer: Producer<T>,
    items: Vec<T>,
    come: Arc<AtomicUsize, Global>,
    threads: usize,
) -> JoinHandle<()>
where
    T: Drop + Send + 'static,
    R: Threads + Wait + Abort + Copy + Send + 'static,
{
    let started = thread::spawn(&rt, move || {
        meet(&rt, &come, threads);
        offer_all(&rt, producer, items)
    });
    started.expect(&rt, "thread")
}

// Starts a thread for each producer, which offers its part of the items.
fn start_all<T, R>(
    rt: R,
    alloc: Global,
    producers: Vec<Producer<T>>,
    items: &mut Vec<T>,
    come: &Arc<AtomicUsize, Global>,
) -> Vec<JoinHandle<()>>
where
    T: Drop + Send + 'static,
    R: Threads + Wait + Abort + Copy + Send + 'static,
    requires { (0 < length producers.items) × (length producers.items ≤ 64) }
{
    let count = producers.len();
    let part = items.len() / count;
    let mut children = Vec::new(alloc);
    for producer in producers {
        let own = split_off(&rt, alloc, items, part);
        let come = Arc::try_clone(come).expect(&rt, "memory");
        let child = start_one(rt, producer, own, come, count + 1);
        children.push(child).expect(&rt, "memory");
    }
    children
}

// Takes a number of items, once all threads have come, and gives the nanoseconds that it took.
fn take_timed<T, R>(
    rt: &R,
    consumer: &mut Consumer<T>,
    come: &AtomicUsize,
    threads: usize,
    count: usize,
    kept: &mut Vec<T>,
) -> u128
where
    T: Drop,
    R: Wait + Clock + Abort,
{
    meet(rt, come, threads);
    let start = Instant::now(rt).expect(rt, "clock");
    take_all(rt, consumer, count, kept);
    start.elapsed(rt).expect(rt, "clock").as_nanos()
}

// Sends the items through a new pipe, by as many producers, and gives the nanoseconds. They come back in the list that they
// came in, whose memory the system has given already. The clock starts once all threads run.
fn round<T, R>(rt: R, alloc: Global, items: &mut Vec<T>, producers: usize) -> u128
where
    T: Drop + Send + 'static,
    R: Threads + Wait + Clock + Abort + Copy + Send + 'static,
    requires { (0 < producers) × (producers ≤ 64) }
{
    let count = items.len();
    let come = Arc::new(alloc, AtomicUsize::new(0)).expect(&rt, "memory");
    let (_, ends, mut consumer) = Pipe::<T>::new(alloc, CAPACITY, producers).expect(&rt, "memory");
    let children = start_all(rt, alloc, ends, items, &come);
    let sent = count.saturating_sub(items.len());
    let spent = take_timed(&rt, &mut consumer, &come, producers + 1, sent, items);
    for child in children {
        child.join(&rt);
    }
    spent
}

// The tenths of a nanosecond that an item took in the middle one of the rounds.
fn tenths<T, R>(rt: R, alloc: Global, items: &mut Vec<T>, producers: usize) -> u128
where
    T: Drop + Send + 'static,
    R: Threads + Wait + Clock + Abort + Copy + Send + 'static,
    requires { (0 < producers) × (producers ≤ 64) }
{
    let mut figures = Vec::new(alloc);
    for _ in 0..ROUNDS {
        let nanos = round(rt, alloc, items, producers);
        let passed = items.len() as u128;
        figures
            .push(nanos.saturating_mul(10) / passed.max(1))
            .expect(&rt, "memory");
    }
    figures.sort().expect(&rt, "memory");
    figures.get(ROUNDS / 2).copied().unwrap_or(0)
}

fn words<R: Abort>(rt: &R, alloc: Global) -> Vec<u64> {
    let mut items = Vec::new(alloc);
    for i in 0..ITEMS {
        items.push(i as u64).expect(rt, "memory");
    }
    items
}

fn buffers<R: Abort>(rt: &R, alloc: Global) -> Vec<Vec<u8>> {
    let mut items = Vec::new(alloc);
    for _ in 0..ITEMS {
        let buffer = vec![in alloc; 0u8; BUFFER].expect(rt, "memory");
        items.push(buffer).expect(rt, "memory");
    }
    items
}

// Whether times are asked for.
fn is_asked(rt: HostRuntime) -> bool {
    env::var(&rt, "BENCH").is_ok()
}

fn time_words<R>(rt: R, alloc: Global, producers: usize) -> u128
where
    R: Threads + Wait + Clock + Abort + Copy + Send + 'static,
    requires { (0 < producers) × (producers ≤ 64) }
{
    let mut items = words(&rt, alloc);
    tenths(rt, alloc, &mut items, producers)
}

fn time_buffers<R>(rt: R, alloc: Global, producers: usize) -> u128
where
    R: Threads + Wait + Clock + Abort + Copy + Send + 'static,
    requires { (0 < producers) × (producers ≤ 64) }
{
    let mut items = buffers(&rt, alloc);
    tenths(rt, alloc, &mut items, producers)
}

fn print(rt: HostRuntime, spent: u128) -> io::Result<()> {
    println!(rt; "{spent}")
}

#[test]
fn word_by_1(rt: HostRuntime) -> io::Result<()> {
    if is_asked(rt) {
        return print(rt, time_words(rt, rt.alloc(), 1));
    }
    Ok(())
}

#[test]
fn word_by_2(rt: HostRuntime) -> io::Result<()> {
    if is_asked(rt) {
        return print(rt, time_words(rt, rt.alloc(), 2));
    }
    Ok(())
}

#[test]
fn buffer_by_1(rt: HostRuntime) -> io::Result<()> {
    if is_asked(rt) {
        return print(rt, time_buffers(rt, rt.alloc(), 1));
    }
    Ok(())
}

#[test]
fn buffer_by_2(rt: HostRuntime) -> io::Result<()> {
    if is_asked(rt) {
        return print(rt, time_buffers(rt, rt.alloc(), 2));
    }
    Ok(())
}
