//! A gate that admits packets by a rule.

use crate::cues::{Cue, Words};
use router_rules::Worker;
use std::alloc::Global;
use std::sync::Arc;
use std::sync::atomic::Ordering;
use worker_parts::Gate;

/// When a gate admits a packet.
#[derive(Clone, Copy)]
pub enum Rule {
    /// At once.
    Open,
    /// At its cue.
    Cued(&'static [Cue]),
    /// A packet of a processor once one of another processor waits here too.
    Meeting,
}

/// A gate that admits packets by a rule.
#[derive(Drop)]
pub struct RuledGate {
    pub words: Arc<Words, Global>,
    pub rule: Rule,
}

impl RuledGate {
    // Whether the packet of a number has come to its cue.
    fn is_cued(&self, cues: &[Cue], number: u64) -> bool {
        self.words.asked.store(number, Ordering::SeqCst);
        match cues.get(number.wrapping_sub(1) as usize) {
            Some(cue) => cue.is_admitted(&self.words),
            None => false,
        }
    }

    // Waits until two processors ask.
    fn meet(&self, worker: Worker) {
        let words = &self.words;
        let (own, other) = match worker {
            Worker::Processor(0) => (&words.zero, &words.other),
            _ => (&words.other, &words.zero),
        };
        own.store(1, Ordering::SeqCst);
        if words.comes(other, 1) {
            words.met.fetch_add(1, Ordering::SeqCst);
        }
    }
}

impl Gate for RuledGate {
    ghost answers = { λ g worker link number admitted. Unit {0} };

    fn admits(&self, worker: Worker, link: u16, number: u64) -> bool {
        let _ = link;
        match self.rule {
            Rule::Open => true,
            Rule::Cued(cues) => self.is_cued(cues, number),
            Rule::Meeting => {
                self.meet(worker);
                true
            }
        }
    }
}
