//! One of a link's pipes, as its forwarder takes from it.

ghost use Rattle.std.specs.Prelude.{◌≡◌, ◌≤◌, ◌<◌, ◌+◌, ◌||◌, min, [], false, true, MatchBool};
ghost use Rattle.ruled_pipe.specs.Gathered.{end_of, ends_in};
ghost use Rattle.worker_forwarder.specs.Forwarding.{IsOver, Met, MetIf, band, closes, end_mark};

use ruled_pipe::{Consumer, Entry, Load, Mark};
use std::marker::Model;
use std::sync::Wait;
use worker_parts::{EgressPacket, RunBrand, is_either};

/// What was taken from a pipe.
#[derive(Drop)]
pub enum Taken<T> {
    Mark,
    Packet(T),
}

/// A consumer that counts the end marks that it took, and keeps whether a closing mark was taken.
pub struct Band<N: RunBrand> {
    consumer: Consumer<EgressPacket<N>>,
    producers: usize,
    // At most as many as the producers.
    ends: usize,
    shut: bool,
}

impl<N: RunBrand> Model for Band<N> {
    ghost use Rattle.std.specs.Prelude.{◌≡◌, min};
    ghost use Rattle.ruled_pipe.specs.Gathered.{ends_in};
    ghost use Rattle.worker_forwarder.specs.Forwarding.{Band as Seen, band};

    ghost Value = { Seen };

    ghost view = { λ b. band b.consumer b.shut };

    ghost invariant = { λ b. (b.producers ≡ b.consumer.producers) × (b.ends ≡ min (ends_in b.consumer.taken) b.producers) };
}

impl<N: RunBrand> Drop for Band<N> {
    fn drop(self) {
        let Band {
            consumer: _,
            producers: _,
            ends: _,
            shut: _,
        } = self;
    }
}

fn closes(mark: Mark) -> bool
    ensures { result ≡ closes mark }
{
    match mark {
        Mark::Close => true,
        Mark::End => false,
    }
}

// One more where it is an end mark, up to the most.
fn counted(mark: Mark, ends: usize, most: usize) -> usize
    requires { ends ≤ most }
    ensures { result ≡ min (ends + end_mark mark) most }
{
    match mark {
        Mark::Close => ends,
        Mark::End => { if ends < most { ends + 1 } else { ends } }
    }
}

impl<N: RunBrand> Band<N> {
    /// The band of a consumer that has taken nothing yet, whose pipe has this many producers.
    pub fn of(consumer: Consumer<EgressPacket<N>>, producers: usize) -> Band<N>
        requires fresh { consumer.taken ≡ [] }
        requires producers { consumer.producers ≡ producers }
        ensures { result ≡ band consumer false }
    {
        Band {
            consumer,
            producers,
            ends: 0,
            shut: false,
        }
    }

    /// Whether each producer's end mark was taken.
    pub fn is_over(&self) -> bool
        ensures { MatchBool result (IsOver self.now) (IsOver self.now → ⊥) }
    {
        self.ends == self.producers
    }

    /// Whether a closing mark was taken.
    pub fn is_shut(&self) -> bool
        ensures { result ≡ self.now.shut }
    {
        self.shut
    }

    /// Takes the entry at the front: none, a mark, or a packet.
    pub fn take<R: Wait>(&mut self, rt: &R) -> Option<Taken<EgressPacket<N>>>
        ensures { Met result self.old self.new }
    {
        let Entry { from: _, load } = self.consumer.take(rt)?;
        match load {
            Load::Payload(egress_packet) => Some(Taken::Packet(egress_packet)),
            Load::Marked(mark) => {
                self.ends = counted(mark, self.ends, self.producers);
                self.shut = is_either(self.shut, closes(mark));
                Some(Taken::Mark)
            }
        }
    }

    /// The same where the pipe is used; else nothing is done.
    pub fn take_if<R: Wait>(&mut self, rt: &R, used: bool) -> Option<Taken<EgressPacket<N>>>
        ensures { MetIf used result self.old self.new }
    {
        if used { self.take(rt) } else { None }
    }

    /// The consumer, with what it took.
    pub fn into_consumer(self) -> Consumer<EgressPacket<N>>
        ensures { result ≡ self.taker }
    {
        let Band {
            consumer,
            producers: _,
            ends: _,
            shut: _,
        } = self;
        consumer
    }
}
