//! A pipe between threads.

ghost use Rattle.std.specs.Prelude.{◌≡◌, ◌<◌, ◌≤◌, ◌∷◌, [], true, MatchBool};
ghost use Rattle.ruled_pipe.specs.Producer.{entry, new_sender, offered, refused};
ghost use Rattle.ruled_pipe.specs.Consumer.{looked, new_taker, took};
ghost use Rattle.ruled_pipe.specs.Pipe.{IsEndOf};
ghost use Rattle.ruled_pipe.specs.Gathered.{IsSettled};
ghost use Rattle.pipeline_tests.specs.Pipe.{IsExample};

use crate::steps::{accepts, closes, gives};
use ruled_pipe::{Consumer, Entry, Full, Gathered, Load, Mark, Pipe, Producer};
use std::alloc::Global;
use std::process::Abort;
use std::sync::Wait;
use std::test::*;
use std::thread;
use std::thread::{JoinHandle, Threads};

fn gives_close<R: Wait>(rt: &R, consumer: &mut Consumer<u32>, producer: usize) -> bool
    ensures { result ≡ true → consumer.new ≡ took consumer.old (entry producer (Load.Marked Mark.Close)) }
{
    match consumer.take(rt) {
        Some(
            Entry {
                from,
                load: Load::Marked(Mark::Close),
            },
        ) => from == producer,
        _ => false,
    }
}

fn is_empty<R: Wait>(rt: &R, consumer: &mut Consumer<u32>) -> bool
    ensures { result ≡ true → consumer.new ≡ looked consumer.old }
{
    consumer.take(rt).is_none()
}

// The ends of a new pipe for two producers.
fn for_two<R: Abort>(
    rt: &R,
    alloc: Global,
) -> (Pipe<u32>, Producer<u32>, Producer<u32>, Consumer<u32>)
    ensures shape { (result.0.capacity ≡ 2) × (result.0.producers ≡ 2) }
    ensures first { result.1 ≡ new_sender result.0.pipe 0 2 2 }
    ensures second { result.2 ≡ new_sender result.0.pipe 1 2 2 }
    ensures consumer { result.3 ≡ new_taker result.0.pipe 2 2 }
{
    let (pipe, mut ends, consumer) = Pipe::<u32>::new(alloc, 2, 2).expect(rt, "memory");
    let second = ends.pop().expect(rt, "producer");
    let first = ends.pop().expect(rt, "producer");
    (pipe, first, second, consumer)
}

// Three offers at a pipe for two.
fn fill_up<R: Wait>(rt: &R, first: &mut Producer<u32>, second: &mut Producer<u32>) -> bool
    ensures first { result ≡ true → first.new ≡ refused (offered first.old (entry first.old.number (Load.Payload 10))) (entry first.old.number (Load.Payload 12)) }
    ensures second { result ≡ true → second.new ≡ offered second.old (entry second.old.number (Load.Payload 11)) }
{
    if !accepts(rt, first, 10) {
        return false;
    }
    if !accepts(rt, second, 11) {
        return false;
    }
    !accepts(rt, first, 12)
}

// A take makes room for a mark, and then the rest is taken.
fn close_and_take<R: Wait>(rt: &R, first: &mut Producer<u32>, consumer: &mut Consumer<u32>) -> bool
    ensures first { result ≡ true → first.new ≡ offered first.old (entry first.old.number (Load.Marked Mark.Close)) }
    ensures consumer { result ≡ true → consumer.new ≡ looked (took (took (took consumer.old (entry 0 (Load.Payload 10))) (entry 1 (Load.Payload 11))) (entry 0 (Load.Marked Mark.Close))) }
{
    if !gives(rt, consumer, 0, 10) {
        return false;
    }
    if !closes(rt, first) {
        return false;
    }
    if !gives(rt, consumer, 1, 11) {
        return false;
    }
    if !gives_close(rt, consumer, 0) {
        return false;
    }
    is_empty(rt, consumer)
}

fn gather_two<R: Abort>(
    rt: &R,
    alloc: Global,
    pipe: Pipe<u32>,
    first: Producer<u32>,
    second: Producer<u32>,
    consumer: Consumer<u32>,
) -> Gathered<u32>
    requires two { pipe.producers ≡ 2 }
    requires first { IsEndOf pipe 0 first }
    requires second { IsEndOf pipe 1 second }
    requires consumer { (consumer.pipe ≡ pipe.pipe) × (consumer.producers ≡ pipe.producers) × (consumer.capacity ≡ pipe.capacity) }
    ensures { (result.senders ≡ first ∷ second ∷ []) × (result.taker ≡ consumer) }
{
    let ends = Vec::from_array(alloc, [first, second]).expect(rt, "memory");
    pipe.gather(ends, consumer)
}

// Two producers at a pipe for two.
fn example<R: Abort + Wait>(rt: &R, alloc: Global) -> Gathered<u32>
    ensures { IsExample result }
{
    let (pipe, mut first, mut second, mut consumer) = for_two(rt, alloc);
    if !fill_up(rt, &mut first, &mut second) {
        panic!(rt; "another answer while the pipe fills");
    }
    if !close_and_take(rt, &mut first, &mut consumer) {
        panic!(rt; "another answer while it is emptied");
    }
    gather_two(rt, alloc, pipe, first, second, consumer)
}

#[test]
fn two_producers_at_a_full_pipe(rt: HostRuntime) {
    let _ = example(&rt, rt.alloc());
}

fn ends<R: Wait>(rt: &R, producer: &mut Producer<u32>) -> bool
    ensures { result ≡ true → producer.new ≡ offered producer.old (entry producer.old.number (Load.Marked Mark.End)) }
{
    producer.mark(rt, Mark::End).is_ok()
}

fn gives_end<R: Wait>(rt: &R, consumer: &mut Consumer<u32>, producer: usize) -> bool
    ensures { result ≡ true → consumer.new ≡ took consumer.old (entry producer (Load.Marked Mark.End)) }
{
    match consumer.take(rt) {
        Some(
            Entry {
                from,
                load: Load::Marked(Mark::End),
            },
        ) => from == producer,
        _ => false,
    }
}

// Both producers end, and all is taken.
fn end_both<R: Wait>(
    rt: &R,
    first: &mut Producer<u32>,
    second: &mut Producer<u32>,
    consumer: &mut Consumer<u32>,
) -> bool
    ensures first { result ≡ true → first.new ≡ offered (offered first.old (entry first.old.number (Load.Payload 10))) (entry first.old.number (Load.Marked Mark.End)) }
    ensures second { result ≡ true → second.new ≡ offered second.old (entry second.old.number (Load.Marked Mark.End)) }
    ensures consumer { result ≡ true → consumer.new ≡ took (took (took consumer.old (entry 0 (Load.Payload 10))) (entry 0 (Load.Marked Mark.End))) (entry 1 (Load.Marked Mark.End)) }
{
    if !accepts(rt, first, 10) {
        return false;
    }
    if !ends(rt, first) {
        return false;
    }
    if !gives(rt, consumer, 0, 10) {
        return false;
    }
    if !ends(rt, second) {
        return false;
    }
    if !gives_end(rt, consumer, 0) {
        return false;
    }
    gives_end(rt, consumer, 1)
}

// A pipe that is settled.
fn settled_example<R: Abort + Wait>(rt: &R, alloc: Global) -> Gathered<u32>
    ensures { IsSettled result.senders result.taker.taken }
{
    let (pipe, mut first, mut second, mut consumer) = for_two(rt, alloc);
    if !end_both(rt, &mut first, &mut second, &mut consumer) {
        panic!(rt; "another answer");
    }
    let gathered = gather_two(rt, alloc, pipe, first, second, consumer);
    gathered.settled();
    gathered
}

#[test]
fn ended_and_taken(rt: HostRuntime) {
    let _ = settled_example(&rt, rt.alloc());
}

// Whether an offer is refused, and gives back the bytes that were offered.
fn refuses<R: Wait>(rt: &R, producer: &mut Producer<Vec<u8>>, item: Vec<u8>, bytes: &[u8]) -> bool {
    match producer.offer(rt, item) {
        Err(full) => gives_back(&full, bytes),
        Ok(()) => false,
    }
}

fn gives_back(full: &Full<Vec<u8>>, bytes: &[u8]) -> bool {
    full.0.as_slice() == bytes
}

// Whether an end mark is refused, and comes back.
fn refuses_end<R: Wait>(rt: &R, producer: &mut Producer<Vec<u8>>) -> bool {
    match producer.mark(rt, Mark::End) {
        Err(Full(back)) => back == Mark::End,
        Ok(()) => false,
    }
}

// Whether the first producer's bytes are taken.
fn gives_bytes<R: Wait>(rt: &R, consumer: &mut Consumer<Vec<u8>>, bytes: &[u8]) -> bool {
    match consumer.take(rt) {
        Some(
            Entry {
                from: 0,
                load: Load::Payload(item),
            },
        ) => item.as_slice() == bytes,
        _ => false,
    }
}

// Whether the first producer's end mark is taken.
fn gives_first_end<R: Wait>(rt: &R, consumer: &mut Consumer<Vec<u8>>) -> bool {
    match consumer.take(rt) {
        Some(
            Entry {
                from: 0,
                load: Load::Marked(mark),
            },
        ) => mark == Mark::End,
        _ => false,
    }
}

// A pipe for one producer.
fn for_one<T: Drop, R: Abort>(
    rt: &R,
    alloc: Global,
    capacity: usize,
) -> (Pipe<T>, Producer<T>, Consumer<T>)
    requires { (0 < capacity) × (capacity ≤ 65536) }
{
    let (pipe, mut ends, consumer) = Pipe::<T>::new(alloc, capacity, 1).expect(rt, "memory");
    (pipe, ends.pop().expect(rt, "producer"), consumer)
}

fn bytes_of<R: Abort>(rt: &R, alloc: Global, bytes: &[u8]) -> Vec<u8> {
    let mut item = Vec::new(alloc);
    item.extend_from_slice(bytes).expect(rt, "memory");
    item
}

#[test]
fn a_refused_item_comes_back(rt: HostRuntime) {
    let alloc = rt.alloc();
    let (_pipe, mut producer, mut consumer) = for_one::<Vec<u8>, _>(&rt, alloc, 1);
    assert!(rt;
        producer
            .offer(&rt, bytes_of(&rt, alloc, &[1, 2, 3]))
            .is_ok()
    );
    assert!(rt; refuses(&rt, &mut producer, bytes_of(&rt, alloc, &[4, 5]), &[4, 5]));
    assert!(rt; refuses_end(&rt, &mut producer));
    assert!(rt; gives_bytes(&rt, &mut consumer, &[1, 2, 3]));
    assert!(rt; producer.mark(&rt, Mark::End).is_ok());
    assert!(rt; gives_first_end(&rt, &mut consumer));
    // what is still held is dropped with the pipe
    assert!(rt; producer.offer(&rt, bytes_of(&rt, alloc, &[6])).is_ok());
}

// Whether each take makes room for one offer.
fn takes_make_room<R: Wait>(
    rt: &R,
    producer: &mut Producer<u32>,
    consumer: &mut Consumer<u32>,
) -> bool {
    for _ in 0..10_000 {
        if consumer.take(rt).is_none() || producer.offer(rt, 7).is_err() {
            return false;
        }
    }
    true
}

// Whether as many offers as the capacity are accepted and no more, and then each take makes room for one.
fn fills_at<R: Abort + Wait>(rt: &R, alloc: Global, capacity: usize) -> bool
    requires { (0 < capacity) × (capacity ≤ 65536) }
{
    let (_pipe, mut producer, mut consumer) = for_one::<u32, R>(rt, alloc, capacity);
    all_fit(rt, &mut producer, capacity as u32)
        && producer.offer(rt, 7).is_err()
        && takes_make_room(rt, &mut producer, &mut consumer)
}

#[test]
fn fills(rt: HostRuntime) {
    for capacity in [1, 2, 7, 65536] {
        assert!(rt; fills_at(&rt, rt.alloc(), capacity));
    }
}

// The same of two producers that take turns. With more than one producer no clause says that a push is
// accepted below the capacity, nor with any that a take finds what is there.
fn two_fill<R: Abort + Wait>(rt: &R, alloc: Global, capacity: usize) -> bool
    requires { (0 < capacity) × (capacity ≤ 65536) }
{
    let (_pipe, mut ends, mut consumer) = Pipe::<u32>::new(alloc, capacity, 2).expect(rt, "memory");
    let mut even = ends.pop().expect(rt, "producer");
    let mut odd = ends.pop().expect(rt, "producer");
    turns_fit(rt, &mut even, &mut odd, capacity)
        && turns_make_room(rt, &mut even, &mut odd, &mut consumer)
}

// An offer by the one or the other.
fn offers_by_turn<R: Wait>(
    rt: &R,
    even: &mut Producer<u32>,
    odd: &mut Producer<u32>,
    i: usize,
) -> bool {
    if i % 2 == 0 {
        even.offer(rt, 5).is_ok()
    } else {
        odd.offer(rt, 5).is_ok()
    }
}

fn turns_fit<R: Wait>(
    rt: &R,
    even: &mut Producer<u32>,
    odd: &mut Producer<u32>,
    count: usize,
) -> bool {
    for i in 0..count {
        if !offers_by_turn(rt, even, odd, i) {
            return false;
        }
    }
    true
}

fn turns_make_room<R: Wait>(
    rt: &R,
    even: &mut Producer<u32>,
    odd: &mut Producer<u32>,
    consumer: &mut Consumer<u32>,
) -> bool {
    for i in 0..10_000 {
        if even.offer(rt, 6).is_ok()
            || odd.offer(rt, 6).is_ok()
            || consumer.take(rt).is_none()
            || !offers_by_turn(rt, even, odd, i)
        {
            return false;
        }
    }
    true
}

#[test]
fn two_producers_fill(rt: HostRuntime) {
    for capacity in [1, 2, 7, 1024] {
        assert!(rt; two_fill(&rt, rt.alloc(), capacity));
    }
}

// Offers the numbers below `count` in their order, each again after a refusal.
fn offer_all<R: Wait>(rt: &R, mut producer: Producer<u32>, count: u32) -> Producer<u32> {
    let mut next = 0;
    for _ in rt.forever() {
        if next >= count {
            break;
        }
        match producer.offer(rt, next) {
            Ok(()) => next += 1,
            Err(_) => thread::yield_now(),
        }
    }
    producer
}

fn number_of(entry: Option<Entry<u32>>) -> Option<(usize, u32)> {
    match entry {
        Some(
            Entry {
                from,
                load: Load::Payload(x),
            },
        ) => Some((from, x)),
        _ => None,
    }
}

// Whether three times a thousand numbers are taken, those of each producer in their order.
fn takes_in_order<R: Wait>(rt: &R, consumer: &mut Consumer<u32>) -> bool {
    let mut next = [0u32; 3];
    for _ in rt.forever() {
        if next == [1000, 1000, 1000] {
            break;
        }
        match number_of(consumer.take(rt)) {
            Some((from, x)) => {
                if from >= 3 || x != next[from] || x >= 1000 {
                    return false;
                }
                next[from] += 1;
            }
            None => thread::yield_now(),
        }
    }
    true
}

#[test]
fn three_producers(rt: HostRuntime) {
    let alloc = rt.alloc();
    let (_pipe, ends, mut consumer) = Pipe::<u32>::new(alloc, 4, 3).expect(&rt, "memory");
    let mut children = Vec::with_capacity(alloc, 3).expect(&rt, "memory");
    for end in ends {
        let child = thread::spawn(&rt, move || offer_all(&rt, end, 1000)).expect(&rt, "thread");
        children.push(child).expect(&rt, "memory");
    }
    assert!(rt; takes_in_order(&rt, &mut consumer));
    for child in children {
        child.join(&rt);
    }
}

// Offers a number of items, and says whether none was refused.
fn all_fit<R: Wait>(rt: &R, producer: &mut Producer<u32>, count: u32) -> bool {
    for i in 0..count {
        if producer.offer(rt, i).is_err() {
            return false;
        }
    }
    true
}

// Each offers so many from this thread, and then, when all have, so many from one of its own.
fn offer_twice<R>(
    rt: R,
    alloc: Global,
    mut ends: Vec<Producer<u32>>,
    count: u32,
) -> Vec<JoinHandle<bool>>
where
    R: Abort + Threads + Wait + Copy + Send + 'static,
{
    let mut children = Vec::with_capacity(alloc, 2).expect(&rt, "memory");
    for end in ends.iter_mut() {
        assert!(rt; all_fit(&rt, end, count));
    }
    for mut end in ends {
        let child = thread::spawn(&rt, move || all_fit(&rt, &mut end, count)).expect(&rt, "thread");
        children.push(child).expect(&rt, "memory");
    }
    children
}

#[test]
fn never_full(rt: HostRuntime) {
    let alloc = rt.alloc();
    let (_pipe, ends, mut consumer) = Pipe::<u32>::new(alloc, 65536, 2).expect(&rt, "memory");
    let children = offer_twice(rt, alloc, ends, 15_000);
    for _ in 0..30_000 {
        assert!(rt; consumer.take(&rt).is_some());
    }
    for child in children {
        assert!(rt; child.join(&rt));
    }
}
