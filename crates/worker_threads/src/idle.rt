//! How an idle worker waits.

use crossbeam_utils::Backoff;
use std::thread;
use std::time::{Clock, Duration};

const SPINS: u32 = 4;

const SHORT_NAPS: u32 = 16;

// The longest nap, in microseconds, and after how many naps it is reached.
const LONGEST: u64 = 500;

const NAPS: u32 = SHORT_NAPS + 9;

/// A few spins, then short naps, then naps that double up to half a millisecond.
#[derive(Drop)]
pub struct Idle {
    backoff: Backoff,
    spins: u32,
    naps: u32,
}

impl Idle {
    /// A worker that has just done something.
    pub fn new() -> Idle {
        Idle {
            backoff: Backoff::new(),
            spins: 0,
            naps: 0,
        }
    }

    /// There was something to do.
    pub fn reset(&mut self) {
        if self.spins > 0 {
            self.backoff.reset();
            self.spins = 0;
            self.naps = 0;
        }
    }

    /// There was nothing to do.
    pub fn rest<R: Clock>(&mut self, rt: &R) {
        if self.spins < SPINS {
            self.spins += 1;
            self.backoff.spin();
        } else {
            thread::sleep(rt, Duration::from_micros(length_of(self.naps)));
            if self.naps < NAPS {
                self.naps += 1;
            }
        }
    }
}

// The shortest nap.
pub(crate) fn nap<R: Clock>(rt: &R) {
    thread::sleep(rt, Duration::from_micros(1));
}

// The length of the nap after a number of naps, in microseconds.
fn length_of(naps: u32) -> u64 {
    if naps < SHORT_NAPS {
        return 1;
    }
    let doublings = (naps - SHORT_NAPS).min(9);
    (1u64 << doublings).min(LONGEST)
}
