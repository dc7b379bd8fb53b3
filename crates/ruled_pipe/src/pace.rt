//! How far a consumer keeps behind its producers.
//!
//! Slots lie side by side, and so do their stamps. A consumer that takes each entry as soon as it is there
//! therefore takes cache lines from the producer that is writing the next one, and the producer takes them back: each entry
//! then costs both of them several times what it costs where they are apart. They stay in step so, since neither
//! finds the pipe empty or full. So a consumer that has taken many in a row counts what is held now and then, and
//! where that is few it waits a little. After an empty look it doesn't, so that a rare entry is taken at once.
use std::hint;

/// How many looks in a row find an entry before what is held is counted; at least as many lie between two counts.
const APART: usize = 32;

/// How often it spins where fewer than `APART` are held. That takes some microseconds.
const SPINS: u32 = 256;

/// In a pipe for fewer than this it never waits: the producers could have filled it long before.
pub(crate) const ROOM: usize = 512;

/// When a consumer next counts what is held. It changes no answer.
#[derive(Clone, Copy)]
pub(crate) struct Pace {
    // how many looks come before that
    left: usize,
}

impl Pace {
    /// That of a consumer which has just begun, or which has just found nothing.
    pub(crate) fn new() -> Pace {
        Pace { left: APART }
    }

    /// Whether what is held is to be counted before the look that comes.
    pub(crate) fn asks(&mut self) -> bool {
        if self.left > 0 {
            self.left -= 1;
            return false;
        }
        true
    }

    /// Takes note of how many entries are held, and spins briefly when these are few, so that more can gather.
    pub(crate) fn keep(&mut self, held: usize) {
        if held < APART {
            for _ in 0..SPINS {
                hint::spin_loop();
            }
        }
        self.left = held.max(APART) - 1;
    }
}
