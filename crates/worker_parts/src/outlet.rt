//! A worker's end of a pipe into which it offers.

ghost use Rattle.std.specs.Prelude.{◌≡◌, [], false, true, is_some, MatchResult};
ghost use Rattle.worker_parts.specs.Outlet.{IsMarked, Tried, gave, kept};

use crate::event::{Event, notify_where};
use ruled_pipe::{Full, Mark, Producer};
use std::marker::Model;
use std::sync::Wait;

/// A producer that pushes its end mark once, after all that it offers, and never closes a pipe. It
/// notifies an event after each push that was accepted, where it has one.
pub struct Outlet<T> {
    producer: Producer<T>,
    ended: bool,
    event: Option<Event>,
}

impl<T> Model for Outlet<T> {
    ghost use Rattle.std.specs.Prelude.{is_some};
    ghost use Rattle.worker_parts.specs.Outlet.{IsMarked, Offering};

    ghost Value = { Offering T };

    ghost view = { λ o. record { sender = o.producer; ended = o.ended; wakes = is_some o.event } };

    ghost invariant = { λ o. IsMarked o.producer o.ended };
}

impl<T: Drop> Drop for Outlet<T> {
    fn drop(self) {
        let Outlet {
            producer: _,
            ended: _,
            event: _,
        } = self;
    }
}

impl<T> Outlet<T> {
    /// The end of a producer that pushed nothing yet, and the event on which its pipe's consumer sleeps, if
    /// it has one.
    pub fn of(producer: Producer<T>, event: Option<Event>) -> Outlet<T>
        requires { producer.offers ≡ [] }
        ensures { result ≡ record { sender = producer; ended = false; wakes = is_some event } }
    {
        Outlet {
            producer,
            ended: false,
            event,
        }
    }

    /// Whether its end mark is there.
    pub fn has_ended(&self) -> bool
        ensures { result ≡ self.now.ended }
    {
        self.ended
    }

    /// The producer: it never closed its pipe, and where it ended, its end mark is its last offer and
    /// its only mark.
    pub fn into_producer(self) -> Producer<T>
        ensures same { result ≡ self.sender }
        ensures marks { IsMarked result self.ended }
    {
        let Outlet {
            producer,
            ended: _,
            event: _,
        } = self;
        producer
    }
}

impl<T: Drop> Outlet<T> {
    /// Offers an item. At `Full` it comes back, and the refusal is noted.
    pub fn offer<R: Wait>(&mut self, rt: &R, item: T) -> Result<(), Full<T>>
        requires { self.old.ended ≡ false }
        ensures { MatchResult result (λ _. self.new ≡ gave self.old item) (λ full. (full.0 ≡ item) × (self.new ≡ kept self.old item)) }
    {
        let answer = self.producer.offer(rt, item);
        notify_where(&self.event, answer.is_ok());
        answer
    }

    /// Tries its end mark where it is still owed, and says whether it is there now.
    pub fn end<R: Wait>(&mut self, rt: &R) -> bool
        ensures tried { Tried self.old self.new }
        ensures there { result ≡ self.new.ended }
    {
        if self.ended {
            return true;
        }
        match self.producer.mark(rt, Mark::End) {
            Ok(()) => {
                self.ended = true;
                notify_where(&self.event, true);
                true
            }
            Err(_) => false,
        }
    }
}
