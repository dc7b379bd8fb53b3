//! An end of a pipe that pushes marks alone.

ghost use Rattle.std.specs.Prelude.{◌≡◌, [], false, true, MatchBool};
ghost use Rattle.run_ends.specs.Shutting.{Closes, Ends, IsShutting, IsStill, shutting};

use ruled_pipe::{Full, Mark, Producer};
use std::marker::Model;
use std::sync::Wait;
use std::thread;

/// A producer that pushes marks alone: a closing mark at most, and its end mark last. A pipe that is not
/// used gets neither.
pub struct Shutter<T> {
    producer: Producer<T>,
    used: bool,
    closed: bool,
    ended: bool,
}

impl<T> Model for Shutter<T> {
    ghost use Rattle.run_ends.specs.Shutting.{IsShutting, Shutting, shutting};

    ghost Value = { Shutting T };

    ghost view = { λ s. shutting s.producer s.used s.closed s.ended };

    ghost invariant = { λ s. IsShutting (shutting s.producer s.used s.closed s.ended) };
}

impl<T: Drop> Drop for Shutter<T> {
    fn drop(self) {
        let Shutter {
            producer: _,
            used: _,
            closed: _,
            ended: _,
        } = self;
    }
}

impl<T: Drop> Shutter<T> {
    /// The end of a producer that pushed nothing yet.
    pub fn of(producer: Producer<T>, used: bool) -> Shutter<T>
        requires { producer.offers ≡ [] }
        ensures { result ≡ shutting producer used false false }
    {
        Shutter {
            producer,
            used,
            closed: false,
            ended: false,
        }
    }

    /// Whether its closing mark was pushed.
    pub fn is_closed(&self) -> bool
        ensures { result ≡ self.now.closed }
    {
        self.closed
    }

    /// Tries the closing mark once, where it is not there yet. Whether it is there now.
    pub fn close<R: Wait>(&mut self, rt: &R) -> bool
        requires { (self.old.used ≡ true) × (self.old.ended ≡ false) }
        ensures { Closes result self.old self.new }
    {
        if self.closed {
            return true;
        }
        match self.producer.mark(rt, Mark::Close) {
            Ok(()) => {
                self.closed = true;
                true
            }
            Err(Full(_)) => false,
        }
    }

    /// Tries the end mark until it is accepted, where the pipe is used.
    pub fn end<R: Wait>(&mut self, rt: &R)
        requires { self.old.ended ≡ false }
        ensures { Ends self.old self.new }
    {
        if !self.used {
            return;
        }
        for _ in rt.forever() {
            if self.try_end(rt) {
                return;
            }
            thread::yield_now();
        }
        unreachable!()
    }

    // Tries the end mark once, and says whether it is there.
    fn try_end<R: Wait>(&mut self, rt: &R) -> bool
        requires { (self.old.used ≡ true) × (self.old.ended ≡ false) }
        ensures { MatchBool result (Ends self.old self.new) (IsStill self.old self.new) }
    {
        match self.producer.mark(rt, Mark::End) {
            Ok(()) => {
                self.ended = true;
                true
            }
            Err(_) => false,
        }
    }

    /// The producer: it pushed marks alone.
    pub fn into_producer(self) -> Producer<T>
        ensures same { result ≡ self.end }
        ensures marks { IsShutting self }
    {
        let Shutter {
            producer,
            used: _,
            closed: _,
            ended: _,
        } = self;
        producer
    }
}
