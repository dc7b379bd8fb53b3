//! Small workers, in threads, to their ends.

ghost use Rattle.std.specs.Prelude.{◌≡◌, ◌≤◌, false};

use packet_ledger::{Blank, Book, RunBrand, Share};
use ruled_pipe::Load;
use stages_tests::{ends_of, next_producer};
use std::alloc::Global;
use std::marker::Brand;
use std::process::Abort;
use std::sync::atomic::AtomicU64;
use std::sync::{Arc, Wait};
use std::test::*;
use std::thread;
use std::thread::Threads;
use std::time::{Clock, Duration};
use worker_parts::{Event, Inlet, Outlet, Signal, Stage, Turn, Turns, Wakeup};
use worker_threads::{Started, Team, ThreadControl, give_up, join_all, start_each};

// It counts a number of datagrams as received, one in a turn, is quiet for a number of turns, and has ended.
#[derive(Drop)]
struct Countdown<N: RunBrand> {
    left: u64,
    quiet: u64,
    share: Share<N>,
}

impl<N: RunBrand> Stage for Countdown<N> {
    ghost use Rattle.std.specs.Prelude.{◌≡◌};

    ghost same = { λ a b. Unit {0} };

    ghost has_ended = { λ a. a.left ≡ 0 };
}

impl<N: RunBrand> Turns<Book<N>> for Countdown<N> {
    ghost use Rattle.std.specs.Prelude.{◌≡◌, refl};
    ghost use Rattle.std.proofs.Common.{◌∙◌};
    ghost use Rattle.packet_ledger.specs.Share.{HasRoom};
    ghost use Rattle.worker_parts.specs.declared.turn.Turn.TheVariants.{Ended};

    ghost may_turn = { λ a. HasRoom a.share.counts };

    ghost has_turned = { λ turn a b. turn ≡ Ended → b.left ≡ 0 };

    ghost awaits = { λ a said. said ≡ false };

    ghost has_waited = { λ waited a b. waited ≡ false };

    ghost has_posted = { λ a b. b.left ≡ a.left };

    ghost is_drained = { λ a. Unit {0} };

    fn has_room(&self) -> bool {
        self.share.has_room()
    }

    fn turn<R: Wait>(&mut self, rt: &R) -> Turn {
        let _ = rt;
        if self.left > 0 {
            self.left -= 1;
            self.share.received(1);
            return Turn::Did;
        }
        if self.quiet > 0 {
            self.quiet -= 1;
            return Turn::Quiet;
        }
        Turn::Ended
    }

    fn awaits_push(&self) -> bool {
        false
    }

    fn wait(&mut self) -> bool {
        false
    }

    fn post<R: Wait>(&mut self, rt: &R, book: &Book<N>) {
        book.post(rt, &mut self.share);
    }

    ghost same_self = { λ x. tt };

    ghost same_then = { λ x y z p q. tt };

    ghost turn_keeps = { λ turn x y is. (tt, is) };

    ghost wait_keeps = { λ waited x y is. tt };

    ghost post_keeps = { λ x y is. (tt, λ ended. is ∙ ended, tt) };
}

// Workers and their control, with room for the handles of their threads.
fn team_of<N: RunBrand, W: Stage + Drop, R: Abort>(
    rt: &R,
    alloc: Global,
    workers: Vec<W>,
    control: Vec<ThreadControl<Book<N>>>,
) -> Team<Book<N>, W> {
    let room = Vec::with_capacity(alloc, workers.len()).expect(rt, "memory");
    Team {
        workers,
        control,
        room,
    }
}

// A number of workers, with shares taken off a list.
fn countdowns<N: RunBrand, R: Abort>(
    rt: &R,
    alloc: Global,
    shares: &mut Vec<Share<N>>,
    count: usize,
) -> Vec<Countdown<N>> {
    let mut workers = Vec::new(alloc);
    for _ in 0..count {
        let worker = Countdown {
            left: 3000,
            quiet: 25,
            share: shares.pop().expect(rt, "share"),
        };
        workers.push(worker).expect(rt, "memory");
    }
    workers
}

// The same control for a number of threads.
fn copies<N: RunBrand, R: Abort>(
    rt: &R,
    alloc: Global,
    control: &ThreadControl<Book<N>>,
    count: usize,
) -> Vec<ThreadControl<Book<N>>> {
    let mut copies = Vec::new(alloc);
    for _ in 0..count {
        let copy = control.another().expect(rt, "memory");
        copies.push(copy).expect(rt, "memory");
    }
    copies
}

// How many workers a team has, and control for how many threads.
type Size = (usize, usize);

fn team<N: RunBrand, R: Abort>(
    rt: &R,
    alloc: Global,
    control: &ThreadControl<Book<N>>,
    shares: &mut Vec<Share<N>>,
    size: Size,
) -> Team<Book<N>, Countdown<N>> {
    let workers = countdowns(rt, alloc, shares, size.0);
    team_of(rt, alloc, workers, copies(rt, alloc, control, size.1))
}

// Whether a worker came to its end and posted all that it counted.
fn is_over<N: RunBrand>(worker: &Countdown<N>) -> bool {
    worker.left == 0 && worker.quiet == 0 && worker.share.posted().received == 3000
}

// How many workers came back, each over.
fn joined<N, R>(rt: &R, started: Started<Countdown<N>>) -> usize
where
    N: RunBrand,
    R: Threads + Wait + Clock,
{
    let back = join_all(rt, started);
    for worker in back.iter() {
        if !is_over(worker) {
            return 0;
        }
    }
    back.len()
}

// ThreadControl for the threads of workers that count, and the workers' shares.
fn orders_for<N: RunBrand, R: Abort>(
    rt: &R,
    alloc: Global,
    blank: Blank,
    workers: usize,
) -> (ThreadControl<Book<N>>, Vec<Share<N>>)
    requires name { blank.table ≡ N.table }
    requires workers { (workers ≡ N.workers) × (workers ≤ 65536) }
{
    let (book, shares) = Book::<N>::new(alloc, blank, workers).expect(rt, "memory");
    let word = Arc::new(alloc, AtomicU64::new(Signal::Hold.word())).expect(rt, "memory");
    let book = Arc::new(alloc, book).expect(rt, "memory");
    (ThreadControl::new(word, book), shares)
}

// How many came back of each of four teams; none where a thread was refused, and all others gave up.
fn four_teams<N, R>(rt: R, alloc: Global, blank: Blank, sizes: [Size; 4]) -> Option<[usize; 4]>
where
    N: RunBrand + Send + Sync + 'static,
    R: Abort + Threads + Wait + Clock + Copy + Send + 'static,
    requires name { blank.table ≡ N.table }
    requires six { N.workers ≡ 6 }
{
    let (control, mut shares) = orders_for::<N, R>(&rt, alloc, blank, 6);
    let [one, two, three, four] = sizes;
    let one = team(&rt, alloc, &control, &mut shares, one);
    let two = team(&rt, alloc, &control, &mut shares, two);
    let three = team(&rt, alloc, &control, &mut shares, three);
    let four = team(&rt, alloc, &control, &mut shares, four);
    let (one, are_all) = start_each(rt, one, true);
    let (two, are_all) = start_each(rt, two, are_all);
    let (three, are_all) = start_each(rt, three, are_all);
    let (four, are_all) = start_each(rt, four, are_all);
    if are_all {
        control.run();
        return Some([
            joined(&rt, one),
            joined(&rt, two),
            joined(&rt, three),
            joined(&rt, four),
        ]);
    }
    give_up(&rt, &control, one);
    give_up(&rt, &control, two);
    give_up(&rt, &control, three);
    give_up(&rt, &control, four);
    None
}

#[test]
fn workers_come_back(rt: HostRuntime) {
    let blank = Blank::new(rt.alloc()).expect(&rt, "memory");
    let back = four_teams::<Brand, _>(rt, rt.alloc(), blank, [(3, 3), (2, 2), (1, 1), (0, 0)]);
    assert!(rt; back == Some([3, 2, 1, 0]));
}

/// A team with control for fewer threads than it has workers is refused, and no thread is left.
#[test]
fn a_refused_thread_ends_all(rt: HostRuntime) {
    let blank = Blank::new(rt.alloc()).expect(&rt, "memory");
    let back = four_teams::<Brand, _>(rt, rt.alloc(), blank, [(3, 3), (1, 1), (2, 1), (0, 0)]);
    assert!(rt; back.is_none());
}

// It adds up the numbers that it takes, and sleeps while there are none.
#[derive(Drop)]
struct Drain {
    from: Inlet<u64>,
    sum: u64,
}

impl Stage for Drain {
    ghost same = { λ a b. Unit {0} };

    ghost has_ended = { λ a. Unit {0} };
}

impl<N: RunBrand> Turns<Book<N>> for Drain {
    ghost may_turn = { λ a. Unit {0} };

    ghost has_turned = { λ turn a b. Unit {0} };

    ghost awaits = { λ a said. Unit {0} };

    ghost has_waited = { λ waited a b. waited ≡ false };

    ghost has_posted = { λ a b. Unit {0} };

    ghost is_drained = { λ a. Unit {0} };

    fn has_room(&self) -> bool {
        true
    }

    fn turn<R: Wait>(&mut self, rt: &R) -> Turn {
        if self.from.is_done() {
            return Turn::Ended;
        }
        match self.from.take(rt) {
            None => Turn::Quiet,
            Some(Load::Marked(_)) => Turn::Did,
            Some(Load::Payload(number)) => {
                self.sum = self.sum.wrapping_add(number);
                Turn::Did
            }
        }
    }

    fn awaits_push(&self) -> bool {
        !self.from.is_done()
    }

    fn wait(&mut self) -> bool {
        false
    }

    fn post<R: Wait>(&mut self, rt: &R, book: &Book<N>) {
        let _ = rt;
        let _ = book;
    }

    ghost same_self = { λ x. tt };

    ghost same_then = { λ x y z p q. tt };

    ghost turn_keeps = { λ turn x y is. (tt, λ e. tt) };

    ghost wait_keeps = { λ waited x y is. tt };

    ghost post_keeps = { λ x y is. (tt, λ ended. tt, tt) };
}

// One worker, and room for its handle.
fn alone<N: RunBrand, W: Stage + Drop, R: Abort>(
    rt: &R,
    alloc: Global,
    worker: W,
    control: ThreadControl<Book<N>>,
) -> Team<Book<N>, W> {
    let mut workers = Vec::new(alloc);
    workers.push(worker).expect(rt, "memory");
    let mut each = Vec::new(alloc);
    each.push(control).expect(rt, "memory");
    team_of(rt, alloc, workers, each)
}

// The end that offers into a pipe with room for 64 entries, and a worker at the other one. The first notifies the event.
fn at_both_ends<R: Abort>(rt: &R, alloc: Global, event: Event) -> (Outlet<u64>, Drain) {
    let made = ends_of::<u64>(alloc, 64, 1);
    let (mut ends, consumer) = made.expect(rt, "memory");
    let to = Outlet::of(next_producer(&mut ends), Some(event));
    let drain = Drain {
        from: Inlet::of(consumer, 1),
        sum: 0,
    };
    (to, drain)
}

// Offers the numbers from 1 to 40, each after a pause in which the other end falls asleep, and then the end mark, for
// which there is room whatever became of the numbers. Whether all were accepted.
fn feed<R: Wait + Clock>(rt: &R, to: &mut Outlet<u64>) -> bool {
    let mut are_all = true;
    for number in 1..41 {
        thread::sleep(rt, Duration::from_micros(200));
        are_all = are_all && !to.has_ended() && to.offer(rt, number).is_ok();
    }
    to.end(rt) && are_all
}

// What a worker that sleeps takes of a pipe into which there is a push now and then: the sum.
fn fed<N, R>(rt: R, alloc: Global, blank: Blank) -> u64
where
    N: RunBrand + Send + Sync + 'static,
    R: Abort + Threads + Wait + Clock + Copy + Send + 'static,
    requires name { blank.table ≡ N.table }
    requires none { N.workers ≡ 0 }
{
    let (control, _) = orders_for::<N, R>(&rt, alloc, blank, 0);
    let event = Arc::new(alloc, Wakeup::new()).expect(&rt, "memory");
    let woken = control.another_with(&event).expect(&rt, "memory");
    let (mut to, drain) = at_both_ends(&rt, alloc, event);
    let team = alone(&rt, alloc, drain, woken);
    let (started, is_there) = start_each(rt, team, true);
    if !is_there {
        give_up(&rt, &control, started);
        return 0;
    }
    control.run();
    let is_fed = feed(&rt, &mut to);
    let mut back = join_all(&rt, started);
    let sum = back.pop().expect(&rt, "worker").sum;
    if is_fed { sum } else { 0 }
}

#[test]
fn a_sleeper_is_woken(rt: HostRuntime) {
    let blank = Blank::new(rt.alloc()).expect(&rt, "memory");
    assert!(rt; fed::<Brand, _>(rt, rt.alloc(), blank) == 820);
}
