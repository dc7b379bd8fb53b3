//! A pipe, and the making of its ends.

ghost use Rattle.std.specs.Prelude.{◌≡◌, ◌<◌, ◌≤◌, [], IfOk};
ghost use Rattle.ruled_pipe.specs.Pipe.{AreNew, shape_of};
ghost use Rattle.ruled_pipe.specs.Consumer.{new_taker};

use crate::consumer::Consumer;
use crate::keeper::Keeper;
use crate::producer::Producer;
use std::alloc::{AllocError, Global};
use std::marker::Model;

/// A pipe, to gather its ends into. Contracts see it as its name, the number of its producers and its
/// capacity.
pub struct Pipe<T> {
    pub(crate) keeper: Keeper<T>,
}

impl<T> Model for Pipe<T> {
    ghost use Rattle.std.specs.Prelude.{◌≡◌, []};
    ghost use Rattle.ruled_pipe.specs.Pipe.{Shape, shape_of};

    ghost Value = { Shape };

    ghost view = { λ p. shape_of p.keeper };

    ghost invariant = { λ p. (p.keeper.made ≡ p.keeper.producers) × (p.keeper.senders ≡ []) };
}

impl<T: Drop> Drop for Pipe<T> {
    fn drop(self) {
        let Pipe { keeper: _ } = self;
    }
}

impl<T: Drop> Pipe<T> {
    /// A new pipe that holds at most `capacity` entries, from 1 to 65,536, and its ends: from 1 to 64
    /// producers in the order of their numbers, which are from 0, and the consumer.
    pub fn new(
        alloc: Global,
        capacity: usize,
        producers: usize,
    ) -> Result<(Pipe<T>, Vec<Producer<T>>, Consumer<T>), AllocError>
        requires capacity { (0 < capacity) × (capacity ≤ 65536) }
        requires producers { (0 < producers) × (producers ≤ 64) }
        ensures pipe { IfOk result (λ r. (r.0.capacity ≡ capacity) × (r.0.producers ≡ producers)) }
        ensures producers { IfOk result (λ r. AreNew r.0.pipe capacity producers producers r.1.items) }
        ensures consumer { IfOk result (λ r. r.2 ≡ new_taker r.0.pipe producers capacity) }
    {
        let (mut keeper, consumer) = Keeper::new(alloc, capacity, producers)?;
        let ends = keeper.all(alloc)?;
        Ok((Pipe { keeper }, ends, consumer))
    }

    // Its keeper, which made all its producers and took back none.
    pub(crate) fn into_keeper(self) -> Keeper<T>
        ensures shape { shape_of result ≡ self }
        ensures made { (result.made ≡ result.producers) × (result.senders ≡ []) }
    {
        let Pipe { keeper } = self;
        keeper
    }
}
