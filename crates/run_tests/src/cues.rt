//! What decides the order of events in a test: when each packet is given, when it is admitted, and what the
//! controller does between.

use crossbeam_utils::Backoff;
use router_run::CloseFault;
use std::alloc::{AllocError, Global};
use std::sync::Arc;
use std::sync::atomic::{AtomicU64, Ordering};
use std::thread;
use std::time::Duration;

/// How often a word is looked at, with a nap between most looks. A test fails at this limit.
pub const LOOKS: u32 = 1_000_000;

/// What the devices, the gate and the controller of a test tell one another.
#[derive(Drop)]
pub struct Words {
    rt: HostRuntime,
    /// How many datagrams of link 1 were passed on to the processor, or dropped.
    pub passed: AtomicU64,
    /// The number of the last packet for which the gate was asked.
    pub asked: AtomicU64,
    /// How often sources were asked.
    pub tried: AtomicU64,
    /// How many packets the sinks were handed, one that is held among them.
    pub handed: AtomicU64,
    /// How far the controller has come.
    pub phase: AtomicU64,
    /// Whether processor 0 asked at a meeting, and whether another one did.
    pub zero: AtomicU64,
    pub other: AtomicU64,
    /// How many packets met.
    pub met: AtomicU64,
}

impl Words {
    pub fn new(rt: HostRuntime) -> Result<Arc<Words, Global>, AllocError> {
        let words = Words {
            rt,
            passed: AtomicU64::new(0),
            asked: AtomicU64::new(0),
            tried: AtomicU64::new(0),
            handed: AtomicU64::new(0),
            phase: AtomicU64::new(0),
            zero: AtomicU64::new(0),
            other: AtomicU64::new(0),
            met: AtomicU64::new(0),
        };
        Ok(Arc::new(rt.alloc(), words)?)
    }

    /// The allocator.
    pub fn alloc(&self) -> Global {
        self.rt.alloc()
    }

    /// Waits a little.
    pub fn pause(&self, backoff: &Backoff) {
        if backoff.is_completed() {
            thread::sleep(&self.rt, Duration::from_micros(1));
        } else {
            backoff.snooze();
        }
    }

    /// Waits until a word has come so far; false at the limit.
    pub fn comes(&self, word: &AtomicU64, to: u64) -> bool {
        let backoff = Backoff::new();
        for _ in 0..LOOKS {
            if word.load(Ordering::SeqCst) >= to {
                return true;
            }
            self.pause(&backoff);
        }
        false
    }

    /// Waits until a little after the controller has come to phase 1; false at the limit.
    pub fn releases(&self) -> bool {
        let released = self.comes(&self.phase, 1);
        thread::sleep(&self.rt, Duration::from_millis(20));
        released
    }
}

/// When a packet of link 1 is given and admitted, of the low band or urgent: the source gives it once the gate
/// was asked for the packet of a number, and the gate admits it once the sink was handed a number of them and the
/// controller has come to a phase.
#[derive(Clone, Copy)]
pub enum Cue {
    Low(u64, u64, u64),
    High(u64, u64, u64),
}

impl Cue {
    pub fn is_urgent(&self) -> bool {
        match self {
            Cue::Low(_, _, _) => false,
            Cue::High(_, _, _) => true,
        }
    }

    // The three numbers.
    fn numbers(&self) -> (u64, u64, u64) {
        match *self {
            Cue::Low(asked, handed, phase) => (asked, handed, phase),
            Cue::High(asked, handed, phase) => (asked, handed, phase),
        }
    }

    /// Whether the source may give it.
    pub fn may_come(&self, words: &Words) -> bool {
        words.asked.load(Ordering::SeqCst) >= self.numbers().0
    }

    /// Whether the gate admits it.
    pub fn is_admitted(&self, words: &Words) -> bool {
        let (_, handed, phase) = self.numbers();
        words.handed.load(Ordering::SeqCst) >= handed && words.phase.load(Ordering::SeqCst) >= phase
    }
}

/// What the controller does.
#[derive(Clone, Copy)]
pub enum Order {
    /// Waits until this number of datagrams were passed on.
    Passed(u64),
    /// Waits until the gate was asked for the packet of this number.
    Asked(u64),
    /// Waits until the sink was handed this number of packets.
    Handed(u64),
    /// Comes to a phase.
    Phase(u64),
    /// Closes the link with an interface, and is answered so.
    Close(u16, Result<(), CloseFault>),
    /// Closes it again and again, until its marks are there.
    CloseAtLast(u16),
}
