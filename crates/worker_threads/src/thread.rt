//! A worker in a thread of its own.

ghost use Rattle.std.specs.Prelude.{◌≡◌, IfOk, IfSome, true};

use crate::idle::{Idle, nap};
use crate::pace::Pace;
use crate::thread_control::ThreadControl;
use std::snapshot::Snapshot;
use std::sync::Wait;
use std::sync::atomic::{AtomicU64, Ordering};
use std::thread::{Builder, Promise, PromisedHandle, Threads};
use std::time::Clock;
use worker_parts::{Event, Signal, Stage, Turn, Turns};

/// The size of a thread's stack, in bytes.
pub const STACK: usize = 512 * 1024;

/// That a worker comes back ended, the same but for what it did. Only one whose thread was told to give
/// up before its first turn doesn't come back.
#[derive(Drop)]
pub struct WillEnd<W>(pub Snapshot<W>);

impl<W: Stage> Promise<Option<W>> for WillEnd<W> {
    ghost use Rattle.std.specs.Prelude.{IfSome};

    ghost kept_by = { λ p r. IfSome r (λ w. W.same p.0.value w × W.has_ended w) };
}

// Whether it is time to post after such a turn: from time to time, and at the end.
fn is_due(turn: Turn, pace: &mut Pace) -> bool
    ensures { turn ≡ Turn.Ended → result ≡ true }
{
    match turn {
        Turn::Did => pace.did(),
        Turn::Quiet => false,
        Turn::Ended => true,
    }
}

// Posts where it is time to.
fn post_if<B, W: Turns<B>, R: Wait>(rt: &R, worker: &mut W, book: &B, due: bool)
    ensures same { W.same worker.old worker.new }
    ensures ended { W.has_ended worker.old → W.has_ended worker.new }
    ensures drained { due ≡ true → W.is_drained worker.new }
{
    if due {
        worker.post(rt, book);
    }
}

// One turn, where each count can still be raised, and what is posted for it.
fn attempt<B, W: Turns<B>, R: Wait>(rt: &R, worker: &mut W, book: &B, pace: &mut Pace) -> Turn
    ensures same { W.same worker.old worker.new }
    ensures ended { result ≡ Turn.Ended → W.has_ended worker.new × W.is_drained worker.new }
{
    if !worker.has_room() {
        worker.post(rt, book);
        return Turn::Quiet;
    }
    let turn = worker.turn(rt);
    let due = is_due(turn, pace);
    post_if(rt, worker, book, due);
    turn
}

// Whoever looks at the book while a worker sleeps is to see all that it counted: so the three ways
// to sleep ask for a worker that has posted.

// A nap in which items gather.
fn nap_posted<B, W: Turns<B>, R: Clock>(rt: &R, worker: &W)
    requires { W.is_drained worker.now }
{
    let _ = worker;
    nap(rt);
}

// Waits in the worker's own way. Whether it did.
fn wait_posted<B, W: Turns<B>>(worker: &mut W) -> bool
    requires { W.is_drained worker.old }
    ensures { W.same worker.old worker.new }
{
    worker.wait()
}

// Waits in the worker's own way, and else rests.
fn rest_posted<B, W: Turns<B>, R: Clock>(rt: &R, worker: &mut W, pace: &mut Pace)
    requires { W.is_drained worker.old }
    ensures { W.same worker.old worker.new }
{
    if !wait_posted(worker) {
        pace.rest(rt);
    }
}

// Sleeps until there is a push, where only one can end the worker's quiet.
fn sleep_posted<B, W: Turns<B>, R: Wait + Clock>(rt: &R, worker: &W, event: &Event, pace: &mut Pace)
    requires { W.is_drained worker.now }
{
    if worker.awaits_push() {
        pace.sleep(rt, event);
    } else {
        event.withdraw();
    }
}

// Sleeps until there is a push. Since one may have come before the sleep was announced, there is a turn
// between, and only where a push is still what ends its quiet it sleeps: the turn may have taken what a
// gate holds back. Whether the worker has ended.
fn sleep_on<B, W: Turns<B>, R: Wait + Clock>(
    rt: &R,
    worker: &mut W,
    book: &B,
    pace: &mut Pace,
    event: &Event,
) -> bool
    ensures same { W.same worker.old worker.new }
    ensures ended { result ≡ true → W.has_ended worker.new × W.is_drained worker.new }
{
    event.announce();
    match attempt(rt, worker, book, pace) {
        Turn::Did => {
            event.withdraw();
            false
        }
        Turn::Quiet => {
            worker.post(rt, book);
            sleep_posted(rt, worker, event, pace);
            false
        }
        Turn::Ended => true,
    }
}

// There was nothing to do. Whether the worker has ended. A busy thread has no need of this code, so it stays out of the
// way of a turn's.
#[inline(never)]
fn pause<B, W: Turns<B>, R: Wait + Clock>(
    rt: &R,
    worker: &mut W,
    control: &ThreadControl<B>,
    pace: &mut Pace,
) -> bool
    ensures same { W.same worker.old worker.new }
    ensures ended { result ≡ true → W.has_ended worker.new × W.is_drained worker.new }
{
    if pace.gathers() {
        worker.post(rt, &control.book);
        nap_posted(rt, worker);
        return false;
    }
    if worker.awaits_push() {
        if let Some(event) = &control.event {
            return sleep_on(rt, worker, &control.book, pace, event);
        }
    }
    worker.post(rt, &control.book);
    rest_posted(rt, worker, pace);
    false
}

// One turn, and what it asks for. Whether the worker has ended.
fn advance<B, W: Turns<B>, R: Wait + Clock>(
    rt: &R,
    worker: &mut W,
    control: &ThreadControl<B>,
    pace: &mut Pace,
) -> bool
    ensures same { W.same worker.old worker.new }
    ensures ended { result ≡ true → W.has_ended worker.new × W.is_drained worker.new }
{
    match attempt(rt, worker, &control.book, pace) {
        Turn::Did => {
            if control.event.is_none() && pace.waits_at_once() {
                worker.post(rt, &control.book);
                let _ = wait_posted(worker);
            }
            false
        }
        Turn::Quiet => pause(rt, worker, control, pace),
        Turn::Ended => true,
    }
}

/// Makes turns to the worker's end, and posts what it counted.
pub fn work_on<B, W: Turns<B>, R: Wait + Clock>(rt: &R, control: &ThreadControl<B>, worker: W) -> W
    ensures same { W.same worker result }
    ensures ended { W.has_ended result }
    ensures posted { W.is_drained result }
{
    let mut worker = worker;
    let mut pace = Pace::new();
    for _ in rt.forever() {
        let has_ended = advance(rt, &mut worker, control, &mut pace);
        if has_ended {
            return worker;
        }
    }
    unreachable!()
}

// Waits until all threads are made. False where one couldn't be.
fn may_begin<R: Wait + Clock>(rt: &R, word: &AtomicU64) -> bool {
    let mut idle = Idle::new();
    for _ in rt.forever() {
        match Signal::of(word.load(Ordering::SeqCst)) {
            Signal::Hold => idle.rest(rt),
            Signal::Run => return true,
            Signal::Stop => return true,
            Signal::GiveUp => return false,
        }
    }
    unreachable!()
}

fn work_once_told<B, W: Turns<B> + Drop, R: Wait + Clock>(
    rt: &R,
    control: &ThreadControl<B>,
    worker: W,
) -> Option<W>
    ensures { IfSome result (λ w. W.same worker w × W.has_ended w) }
{
    if may_begin(rt, &control.word) {
        Some(work_on(rt, control, worker))
    } else {
        None
    }
}

/// A thread of a worker, which holds until it is told to run, and what it promises.
pub type Handle<W> = PromisedHandle<Option<W>, WillEnd<W>>;

/// A thread of the worker's own, which holds until it is told to run; none where no thread could be made. It takes no memory of the
/// allocator.
pub fn start_worker<B, W, R>(rt: R, control: ThreadControl<B>, worker: W) -> Option<Handle<W>>
where
    B: Drop + Send + Sync + 'static,
    W: Turns<B> + Send + Drop + 'static,
    R: Threads + Wait + Clock + Copy + Send + 'static,
    ensures { IfSome result (λ h. h.promise.0.value ≡ worker) }
{
    let promise = WillEnd(Snapshot::of(&worker));
    let builder = Builder::new().stack_size(STACK);
    match builder.spawn_with(&rt, promise, move || work_once_told(&rt, &control, worker)) {
        Ok(handle) => Some(handle),
        Err(_) => None,
    }
}
