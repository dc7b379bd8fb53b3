//! The keeper of a pipe: it makes its producers, and takes them back.

ghost use Rattle.std.specs.Prelude.{◌≡◌, ◌<◌, ◌≤◌, ◌++◌, ◌∷◌, [], List, IfOk, MatchResult, length};
ghost use Rattle.crossbeam_queue.specs.Passes.{IsPassOf, ruled_capacity};
ghost use Rattle.ruled_pipe.specs.declared.entry.Entry.{Entry};
ghost use Rattle.ruled_pipe.specs.Rule.{known_by, both_of, consumer, keeper, size_of};
ghost use Rattle.ruled_pipe.specs.Producer.{new_sender};
ghost use Rattle.ruled_pipe.specs.Consumer.{new_taker};
ghost use Rattle.ruled_pipe.specs.Pipe.{one_made, took_back, IsNext, IsTakerOf, shape_of, AreNew};
ghost use Rattle.ruled_pipe.specs.Gathered.{IsWhole};

use crate::consumer::{Consumer, consumer_of};
use crate::gathered::Gathered;
use crate::producer::{Producer, add};
use crate::rule::{Opens, Queue, Room, Seat, TakesIn, Whole};
use std::alloc::{AllocError, Global};
use std::marker::{Brand, Model};
use std::snapshot::Snapshot;
use std::sync::Arc;

/// The keeper of a pipe. Contracts see it as its pipe, how many producers the pipe is to have, its
/// capacity, how many producers were made, and those that were taken back, in the order of their numbers.
pub struct Keeper<T> {
    queue: Arc<Queue<T>, Global>,
    seat: Seat<T>,
    producers: usize,
    made: usize,
}

impl<T> Model for Keeper<T> {
    ghost use Rattle.std.specs.Prelude.{◌≡◌};
    ghost use Rattle.std.specs.Arc.{arc_value};
    ghost use Rattle.crossbeam_queue.specs.Passes.{IsPassOf, ruled_capacity};
    ghost use Rattle.ruled_pipe.specs.Rule.{known_by, keeper, size_of};
    ghost use Rattle.ruled_pipe.specs.Pipe.{Keeping, keeping, AreLeft};

    ghost Value = { Keeping T };

    ghost view = { λ k. keeping k.seat.table_id k.producers (ruled_capacity (arc_value k.queue)) k.made (known_by k.seat).known };

    ghost invariant = { λ k. IsPassOf (arc_value k.queue) k.seat × (known_by k.seat ≡ keeper k.made (size_of (ruled_capacity (arc_value k.queue)) k.producers) (known_by k.seat).known) × AreLeft k.producers (ruled_capacity (arc_value k.queue)) (known_by k.seat).known };
}

impl<T: Drop> Drop for Keeper<T> {
    fn drop(self) {
        let Keeper {
            queue: _,
            seat: _,
            producers: _,
            made: _,
        } = self;
    }
}

impl<T: Drop> Keeper<T> {
    /// A new pipe that holds at most `capacity` entries, from 1 to 65,536, and is to have so many
    /// producers, from 1 to 64: its keeper and its consumer.
    pub fn new(
        alloc: Global,
        capacity: usize,
        producers: usize,
    ) -> Result<(Keeper<T>, Consumer<T>), AllocError>
        requires capacity { (0 < capacity) × (capacity ≤ 65536) }
        requires producers { (0 < producers) × (producers ≤ 64) }
        ensures keeper { IfOk result (λ r. (r.0.capacity ≡ capacity) × (r.0.producers ≡ producers) × (r.0.made ≡ 0) × (r.0.senders ≡ [])) }
        ensures consumer { IfOk result (λ r. r.1 ≡ new_taker r.0.pipe producers capacity) }
    {
        let (queue, mut seat) = Queue::<T>::ruled(alloc, capacity)?;
        let taking = open::<T, Brand>(&queue, &mut seat, producers);
        let queue = Arc::new(alloc, queue)?;
        let consumer = consumer_of(alloc, &queue, taking, producers)?;
        Ok((
            Keeper {
                queue,
                seat,
                producers,
                made: 0,
            },
            consumer,
        ))
    }

    /// The next producer, which has the number of those made before. At `Err` there is none more.
    pub fn producer(&mut self, alloc: Global) -> Result<Producer<T>, AllocError>
        requires some { self.old.made < self.old.producers }
        requires none_back { self.old.senders ≡ [] }
        ensures { MatchResult result (λ p. (p ≡ new_sender self.old.pipe self.old.made self.old.producers self.old.capacity) × (self.new ≡ one_made self.old)) (λ _. self.new ≡ self.old) }
    {
        let end = add(
            alloc,
            &self.queue,
            &mut self.seat,
            self.producers,
            self.made,
        )?;
        self.made += 1;
        Ok(end)
    }

    /// Takes back the next producer, in the order of their numbers. It takes no memory.
    pub fn absorb(&mut self, producer: Producer<T>)
        requires { IsNext self.old producer }
        ensures { self.new ≡ took_back self.old producer }
    {
        producer.leave::<Brand>(&self.queue, &mut self.seat);
    }

    /// Takes back the consumer, once all producers were made and taken back, and says what holds of the
    /// whole. It takes no memory.
    pub fn settle(self, consumer: Consumer<T>) -> Gathered<T>
        requires all { (self.made ≡ self.producers) × (length self.senders ≡ self.producers) }
        requires consumer { IsTakerOf (shape_of self) consumer }
        ensures views { (result.senders ≡ self.senders) × (result.taker ≡ consumer) }
        ensures whole { (held : List (Entry T)) × IsWhole self.capacity self.senders consumer.taken held }
    {
        let keeper = Snapshot::of(&self);
        let taker = Snapshot::of(&consumer);
        let Keeper {
            queue,
            mut seat,
            producers: _,
            made: _,
        } = self;
        let taking = consumer.into_seat();
        queue.absorb::<TakesIn>(&mut seat, taking);
        queue.learn_as::<Whole>(&mut seat);
        Gathered { keeper, taker }
    }

    // All its producers, in the order of their numbers.
    pub(crate) fn all(&mut self, alloc: Global) -> Result<Vec<Producer<T>>, AllocError>
        requires none { (self.old.made ≡ 0) × (self.old.senders ≡ []) }
        requires few { self.old.producers ≤ 64 }
        ensures keeper { IfOk result (λ _. self.new ≡ record self.old { made = self.old.producers }) }
        ensures made { IfOk result (λ ends. AreNew self.old.pipe self.old.capacity self.old.producers self.old.producers ends.items) }
    {
        let mut ends = Vec::with_capacity(alloc, self.producers)?;
        for _ in 0..self.producers {
            let end = self.producer(alloc)?;
            ends.push(end)?;
        }
        Ok(ends)
    }
}

// The keeper's seat learns the size, and the consumer gets one.
fn open<T, K: Room>(queue: &Queue<T>, seat: &mut Seat<T>, producers: usize) -> Seat<T>
    requires room { (K.capacity ≡ ruled_capacity queue.now) × (K.producers ≡ producers) }
    requires seat { IsPassOf queue.now seat.old × (known_by seat.old ≡ both_of 0 (size_of 0 0) [] []) }
    ensures keeper { IsPassOf queue.now seat.new × (known_by seat.new ≡ keeper 0 (size_of (ruled_capacity queue.now) producers) []) }
    ensures consumer { IsPassOf queue.now result × (known_by result ≡ consumer (size_of (ruled_capacity queue.now) producers) []) }
{
    queue.another::<Opens<K>>(seat)
}
