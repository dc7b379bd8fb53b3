//! Workers that come back from their threads.

ghost use Rattle.worker_parts.specs.Back.{AreBack};

use crate::starting::Started;
use crate::thread::Handle;
use std::sync::Wait;
use std::thread;
use std::thread::Threads;
use std::time::{Clock, Duration};
use worker_parts::Stage;

/// Joins a worker that was told to run: it comes back, since only one that gave up doesn't. It has ended, and is
/// the same as when its thread was made.
pub fn join_worker<W, R>(rt: &R, handle: Handle<W>) -> W
where
    W: Stage,
    R: Threads + Wait + Clock,
    ensures { W.same handle.promise.0.value result × W.has_ended result }
{
    if let Some(worker) = handle.join(rt) {
        return worker;
    }
    // Were that ever broken, the end would wait here for good rather than report a run that isn't whole: a
    // program has no way to abort.
    for _ in rt.forever() {
        thread::sleep(rt, Duration::from_secs(1));
    }
    unreachable!()
}

/// Joins workers that were told to run, one by one, into the list that they came from. It takes no memory.
/// Each has ended, and is the same as when its thread was made.
pub fn join_all<W, R>(rt: &R, started: Started<W>) -> Vec<W>
where
    W: Stage,
    R: Threads + Wait + Clock,
    ensures { AreBack (λ a b. W.same a b × W.has_ended b) started result.items }
{
    let Started {
        mut handles,
        room: mut back,
    } = started;
    let count = handles.len();
    handles.reverse();
    for k in 0..count {
        let Some(handle) = handles.pop() else {
            unreachable!()
        };
        back.push_reserved(join_worker(rt, handle));
    }
    handles.destroy_empty();
    back
}
