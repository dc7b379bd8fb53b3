//! A sink that takes packets by a rule.

ghost use Rattle.std.specs.Prelude.{◌≡◌, ◌+◌, ◌-◌, ◌^◌, ◌<◌, None, is_ok, if◌then◌else◌};
ghost use Rattle.worker_laws.specs.Forwards.{AddsTo};
ghost use Rattle.worker_parts.specs.Told.{telling};

use crate::cues::Words;
use router_rules::Outgoing;
use std::alloc::{AllocError, Global};
use std::sync::Arc;
use std::sync::atomic::Ordering;
use worker_parts::{ListSink, Sent, Sink, SinkFault, both};

/// What a sink does with what it is handed.
#[derive(Clone, Copy)]
pub enum Taking {
    /// Takes all, and keeps nothing.
    Counts,
    /// Keeps it, and fails at so many of its first calls.
    Keeps(u64),
    /// Keeps it, and holds the first one until a little after the controller has come to phase 1.
    Holds,
}

/// A sink that takes packets by a rule.
#[derive(Drop)]
pub struct PlannedSink {
    words: Arc<Words, Global>,
    // Whether it holds the next one.
    holds: bool,
    keeps: bool,
    list: ListSink,
}

// The numbers from 1 to `count`.
fn first_numbers(alloc: Global, count: u64) -> Result<Vec<u64>, AllocError> {
    let mut numbers = Vec::new(alloc);
    for k in 0..count {
        numbers.push(k + 1)?;
    }
    Ok(numbers)
}

impl PlannedSink {
    pub fn new(words: &Arc<Words, Global>, taking: Taking) -> Result<PlannedSink, AllocError> {
        let (fails, holds, keeps) = match taking {
            Taking::Counts => (0, false, false),
            Taking::Keeps(fails) => (fails, false, true),
            Taking::Holds => (0, true, true),
        };
        let alloc = words.alloc();
        let (words, fails) = both(Arc::try_clone(words), first_numbers(alloc, fails))?;
        Ok(PlannedSink {
            words,
            holds,
            keeps,
            list: ListSink::new(alloc, fails),
        })
    }

    /// What it kept, in order; none where it couldn't keep it all.
    pub fn told(&self) -> Option<&[Sent]> {
        self.list.told()
    }
}

impl Sink for PlannedSink {
    ghost told = { λ s. None };

    ghost failed = { λ s. s.list.failed };

    ghost same = { λ a b. Unit {0} };

    ghost same_self = { λ x. tt };

    ghost same_then = { λ x y z p q. tt };

    fn send(&mut self, out: &Outgoing, bytes: &[u8]) -> Result<(), SinkFault> {
        self.words.handed.fetch_add(1, Ordering::SeqCst);
        if self.holds {
            self.holds = false;
            // At the limit it keeps nothing more.
            self.keeps = self.words.releases();
        }
        if !self.keeps {
            return Ok(());
        }
        self.list.send(out, bytes)
    }

    fn failures(&self) -> u64 {
        self.list.failures()
    }
}
