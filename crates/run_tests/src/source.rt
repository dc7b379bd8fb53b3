//! A source that gives datagrams by a plan.

ghost use Rattle.std.specs.Prelude.{◌≡◌, ◌+◌, ◌-◌, ◌^◌, ◌<◌, [], ◌∷◌, None, false, length};
ghost use Rattle.field_rows.specs.Place.{Puts};
ghost use Rattle.sample_packets.specs.declared.datagram.TheConstants.{FIRST};
ghost use Rattle.worker_laws.specs.Forwards.{AddsTo};
ghost use Rattle.worker_parts.specs.Heard.{failures_of, fits, heard};
ghost use Rattle.worker_parts.specs.Buffer.{buffer_len};

use crate::cues::{Cue, Words};
use process_packet::Underlay;
use sample_packets::{FIRST, IN_TIME, with_bytes};
use stages_tests::NEAR;
use std::alloc::{AllocError, Global};
use std::sync::Arc;
use std::sync::atomic::Ordering;
use worker_parts::{NextLen, Source};

/// Of how many flows the datagrams are, where they aren't all of one.
pub const FLOWS: u64 = 50;

/// What a source gives, and when.
#[derive(Clone, Copy)]
pub enum Plan {
    /// The first datagram, or the urgent one, once for each cue; then it is quiet.
    Cued(&'static [Cue]),
    /// The first datagram so often, each once the sinks were handed those before it; then it ends.
    Paced(u64),
    /// The first datagram so often, then so many failures; then it ends.
    Failing(u64, u64),
    /// A datagram so often, from this address, each of the next flow; then it ends.
    Flows(u64, Underlay, [u8; 92]),
}

/// It ends at once.
pub const ENDED: Plan = Plan::Paced(0);

/// It fails whenever it is asked.
pub const FAILS: Plan = Plan::Failing(0, u64::MAX);

// The first datagram, with the traffic class of what is urgent.
fn urgent() -> [u8; 92]
    ensures { Puts FIRST result 0 (11 ∷ 128 ∷ []) }
{
    with_bytes(FIRST, 0, b"\x0b\x80")
}

// What a source does when it is asked.
enum Step {
    Give([u8; 92]),
    Quiet,
    Fail,
    End,
}

/// A source that gives datagrams by a plan.
#[derive(Drop)]
pub struct PlannedSource {
    words: Arc<Words, Global>,
    plan: Plan,
    given: u64,
    failed: u64,
}

impl PlannedSource {
    pub fn new(words: &Arc<Words, Global>, plan: Plan) -> Result<PlannedSource, AllocError> {
        Ok(PlannedSource {
            words: Arc::try_clone(words)?,
            plan,
            given: 0,
            failed: 0,
        })
    }

    // The step for a cue, once it may come.
    fn cued(&self, cue: &Cue) -> Step {
        if !cue.may_come(&self.words) {
            return Step::Quiet;
        }
        Step::Give(if cue.is_urgent() { urgent() } else { FIRST })
    }

    // The first datagram, once so many were handed to the sinks.
    fn paced(&self, handed: u64) -> Step {
        if self.words.handed.load(Ordering::SeqCst) < handed {
            return Step::Quiet;
        }
        Step::Give(FIRST)
    }

    // What it does after all datagrams: it fails so often, and ends.
    fn after(&self, failures: u64) -> Step {
        if self.failed < failures {
            Step::Fail
        } else {
            Step::End
        }
    }

    fn step(&self) -> Step {
        match self.plan {
            Plan::Cued(cues) => match cues.get(self.given as usize) {
                Some(cue) => self.cued(cue),
                None => Step::Quiet,
            },
            Plan::Paced(count) if self.given < count => self.paced(self.given),
            Plan::Failing(count, _) if self.given < count => Step::Give(FIRST),
            Plan::Flows(count, _, first) if self.given < count => {
                let flow = self.given.wrapping_add(1) % FLOWS;
                Step::Give(with_bytes(first, 3, &[flow as u8]))
            }
            Plan::Failing(_, failures) => self.after(failures),
            _ => Step::End,
        }
    }

    // Where its datagrams come from.
    fn from(&self) -> Underlay {
        match self.plan {
            Plan::Flows(_, from, _) => from,
            _ => NEAR,
        }
    }

    // Gives a datagram.
    fn give(&mut self, datagram: &[u8; 92], buffer: &mut [u8]) -> NextLen
        requires { length buffer.old ≡ buffer_len }
        ensures same { length buffer.new ≡ length buffer.old }
        ensures fits { fits result }
        ensures failed { (failures_of result ≡ 0) × (self.new.failed ≡ self.old.failed) }
    {
        self.given = self.given.wrapping_add(1);
        let (front, _) = buffer.split_at_mut(92);
        front.copy_from_slice(datagram);
        NextLen::Datagram {
            len: 92,
            from: self.from(),
            now: IN_TIME,
        }
    }
}

impl Source for PlannedSource {
    ghost told = { λ s. None };

    ghost failed = { λ s. s.failed };

    ghost same = { λ a b. Unit {0} };

    ghost same_self = { λ x. tt };

    ghost same_then = { λ x y z p q. tt };

    ghost waits = { λ s said. said ≡ false };

    fn next_into(&mut self, buffer: &mut [u8]) -> NextLen {
        self.words.tried.fetch_add(1, Ordering::SeqCst);
        if self.given > 0 {
            self.words.passed.store(self.given, Ordering::SeqCst);
        }
        match self.step() {
            Step::Give(datagram) => self.give(&datagram, buffer),
            Step::Quiet => NextLen::Quiet,
            Step::Fail => {
                self.failed += 1;
                NextLen::Failed
            }
            Step::End => NextLen::End,
        }
    }

    fn wait(&mut self) -> bool {
        false
    }

    fn failures(&self) -> u64 {
        self.failed
    }
}
