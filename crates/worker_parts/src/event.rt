//! What an idle worker sleeps on.

use std::alloc::Global;
use std::sync::atomic::{AtomicU64, Ordering};
use std::sync::{Arc, Wait};

/// On which one worker sleeps until something was pushed into one of its pipes. The first push after it
/// announced its sleep wakes it. Those that follow until it announces another one do nothing: a worker that was woken
/// may take a while to run, and to wake it once more for each push would be a call of the system each time.
#[derive(Drop)]
pub struct Wakeup {
    // 1 from the announcement of a sleep to the first push after it, and else 0.
    awaited: AtomicU64,
}

impl Wakeup {
    /// Nobody sleeps on it.
    pub fn new() -> Wakeup {
        Wakeup {
            awaited: AtomicU64::new(0),
        }
    }

    /// Announces a sleep. What was pushed before isn't told any more, so the worker looks at its pipes between this and
    /// the sleep itself.
    pub fn announce(&self) {
        self.awaited.store(1, Ordering::SeqCst);
    }

    /// Takes the announcement back: no push need wake the worker.
    pub fn withdraw(&self) {
        self.awaited.store(0, Ordering::SeqCst);
    }

    /// Sleeps until the first push after the announcement.
    pub fn sleep<R: Wait>(&self, rt: &R) {
        for _ in rt.forever() {
            if self.awaited.load(Ordering::SeqCst) == 0 {
                return;
            }
            self.awaited.park(rt, 1);
        }
        unreachable!()
    }

    /// Tells of a push. Where no sleep was announced since another was told of, it costs one atomic load.
    pub fn notify(&self) {
        if self.awaited.load(Ordering::SeqCst) == 0 {
            return;
        }
        if self.awaited.swap(0, Ordering::SeqCst) != 0 {
            self.awaited.wake_one();
        }
    }
}

/// What an idle worker sleeps on. The pipes' producers share it.
pub type Event = Arc<Wakeup, Global>;

// Tells of a push, where there was one.
pub(crate) fn notify_where(event: &Option<Event>, pushed: bool) {
    if !pushed {
        return;
    }
    if let Some(event) = event {
        event.notify();
    }
}
