//! A source over a list.

ghost use Rattle.std.specs.Prelude.{◌≡◌, ◌+◌, ◌-◌, ◌^◌, ◌<◌, [], ◌∷◌, ℕ, List, Option, Some, false, length, map};
ghost use Rattle.worker_laws.specs.Forwards.{AddsTo};
ghost use Rattle.worker_parts.specs.Heard.{failures_of, fits, heard};
ghost use Rattle.worker_parts.specs.ListSource.{Gives, heard_of};
ghost use Rattle.worker_parts.specs.Buffer.{buffer_len};

use crate::source::{NextLen, Source};
use process_packet::Underlay;
use std::marker::Model;

/// An answer of a source over a list.
#[derive(Drop)]
pub enum Next {
    /// A datagram; of a longer one than a buffer holds its first 9,217 bytes are given.
    Datagram {
        bytes: Vec<u8>,
        from: Underlay,
        now: u64,
    },
    Quiet,
    Failed,
    End,
}

/// Gives the answers of a list in order, and then `End`. Contracts see what it will answer, what it
/// answered and how often it failed.
pub struct ListSource {
    answers: Vec<Next>,
    given: usize,
    // How often it was asked after its list's end; at the greatest number it tells no more.
    ends: u64,
    failed: u64,
}

impl Model for ListSource {
    ghost use Rattle.std.specs.Prelude.{◌≡◌, ◌≤◌, length};
    ghost use Rattle.worker_parts.specs.ListSource.{Listed, coming, gone};

    ghost Value = { Listed };

    ghost view = { λ s. record { coming = coming s.given s.answers.items; told = gone s.given s.ends s.answers.items; failed = s.failed } };

    ghost invariant = { λ s. (s.given ≤ length s.answers.items) × (1 ≤ s.ends → s.given ≡ length s.answers.items) };
}

impl Drop for ListSource {
    fn drop(self) {
        let ListSource {
            answers: _,
            given: _,
            ends: _,
            failed: _,
        } = self;
    }
}

// Gives an answer, with its bytes at the front of the buffer.
fn give(answer: &Next, buffer: &mut [u8]) -> NextLen
    requires { length buffer.old ≡ buffer_len }
    ensures given { heard buffer.new result ≡ heard_of answer.now }
    ensures same { length buffer.new ≡ length buffer.old }
    ensures fits { fits result }
{
    match answer {
        Next::Datagram { bytes, from, now } => {
            let len = bytes.len().min(buffer.len());
            let (front, _) = buffer.split_at_mut(len);
            front.copy_from_slice(&bytes[..len]);
            NextLen::Datagram {
                len,
                from: *from,
                now: *now,
            }
        }
        Next::Quiet => NextLen::Quiet,
        Next::Failed => NextLen::Failed,
        Next::End => NextLen::End,
    }
}

// Whether it is a failure, as 1 or 0.
fn failures_of(answer: NextLen) -> u64
    ensures { result ≡ failures_of answer }
{
    match answer {
        NextLen::Failed => 1,
        NextLen::Datagram { .. } => 0,
        NextLen::Quiet => 0,
        NextLen::End => 0,
    }
}

impl ListSource {
    /// Gives these answers in order.
    pub fn new(answers: Vec<Next>) -> ListSource
        ensures { result ≡ record { coming = map heard_of answers.items; told = Some []; failed = 0 } }
    {
        ListSource {
            answers,
            given: 0,
            ends: 0,
            failed: 0,
        }
    }
}

impl Source for ListSource {
    ghost told = { λ s. s.told };

    ghost failed = { λ s. s.failed };

    ghost same = { λ a b. Unit {0} };

    ghost same_self = { λ x. tt };

    ghost same_then = { λ x y z p q. tt };

    ghost waits = { λ s said. said ≡ false };

    fn next_into(&mut self, buffer: &mut [u8]) -> NextLen
        requires failures { self.old.failed < 2 ^ 64 - 1 }
        requires room { length buffer.old ≡ buffer_len }
        ensures same { length buffer.new ≡ length buffer.old }
        ensures fits { fits result }
        ensures failed { self.new.failed ≡ self.old.failed + failures_of result }
        ensures told { AddsTo self.old.told (heard buffer.new result) self.new.told }
        ensures gives { Gives self.old.coming (heard buffer.new result) self.new.coming }
        ensures device { Unit {0} }
    {
        if self.given >= self.answers.len() {
            self.ends = self.ends.saturating_add(1);
            return NextLen::End;
        }
        let answer = give(&self.answers[self.given], buffer);
        self.given += 1;
        self.failed += failures_of(answer);
        answer
    }

    fn wait(&mut self) -> bool {
        false
    }

    fn failures(&self) -> u64 {
        self.failed
    }
}
