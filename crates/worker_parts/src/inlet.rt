//! A worker's end of a pipe from which it takes.

ghost use Rattle.std.specs.Prelude.{◌≡◌, ◌<◌, ℕ, [], true, false, MatchOption};
ghost use Rattle.ruled_pipe.specs.Consumer.{looked, took};
ghost use Rattle.ruled_pipe.specs.Gathered.{end_of, ends_in};
ghost use Rattle.ruled_pipe.specs.Producer.{entry};

use ruled_pipe::{Consumer, Entry, Load, Mark};
use std::marker::Model;
use std::sync::Wait;

/// A consumer that counts the end marks that it took. Contracts see it as the consumer.
pub struct Inlet<T> {
    consumer: Consumer<T>,
    producers: usize,
    ends: usize,
}

impl<T> Model for Inlet<T> {
    ghost use Rattle.std.specs.Prelude.{◌≡◌, ◌≤◌};
    ghost use Rattle.ruled_pipe.specs.Consumer.{Taker};
    ghost use Rattle.ruled_pipe.specs.Gathered.{ends_in};

    ghost Value = { Taker T };

    ghost view = { λ i. i.consumer };

    ghost invariant = { λ i. (i.producers ≡ i.consumer.producers) × (i.ends ≡ ends_in i.consumer.taken) × (i.ends ≤ i.producers) };
}

impl<T: Drop> Drop for Inlet<T> {
    fn drop(self) {
        let Inlet {
            consumer: _,
            producers: _,
            ends: _,
        } = self;
    }
}

// Whether it is an end mark, as 1 or 0.
fn end_of<T>(load: &Load<T>) -> usize
    ensures { result ≡ end_of load.now }
{
    match load {
        Load::Payload(_) => 0,
        Load::Marked(Mark::Close) => 0,
        Load::Marked(Mark::End) => 1,
    }
}

impl<T> Inlet<T> {
    /// The inlet of a consumer that has taken nothing yet, whose pipe has this number of producers.
    pub fn of(consumer: Consumer<T>, producers: usize) -> Inlet<T>
        requires fresh { consumer.taken ≡ [] }
        requires producers { consumer.producers ≡ producers }
        ensures { result ≡ consumer }
    {
        Inlet {
            consumer,
            producers,
            ends: 0,
        }
    }

    /// Whether each producer's end mark was taken.
    pub fn is_done(&self) -> bool
        ensures done { result ≡ true → ends_in self.now.taken ≡ self.now.producers }
        ensures left { result ≡ false → ends_in self.now.taken < self.now.producers }
    {
        self.ends == self.producers
    }

    /// The consumer, with what it took.
    pub fn into_consumer(self) -> Consumer<T>
        ensures { result ≡ self }
    {
        let Inlet {
            consumer,
            producers: _,
            ends: _,
        } = self;
        consumer
    }
}

impl<T: Drop> Inlet<T> {
    /// Takes what is at the front. At `None` the look is noted; no clause says that the pipe was empty.
    pub fn take<R: Wait>(&mut self, rt: &R) -> Option<Load<T>>
        requires { ends_in self.old.taken < self.old.producers }
        ensures { MatchOption result (self.new ≡ looked self.old) (λ load. (from : ℕ) × (from < self.old.producers) × (self.new ≡ took self.old (entry from load))) }
    {
        let Entry { from: _, load } = self.consumer.take(rt)?;
        self.ends += end_of(&load);
        Some(load)
    }
}
