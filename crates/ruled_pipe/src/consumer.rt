//! The consumer's end.

ghost use Rattle.std.specs.Prelude.{◌≡◌, ℕ, ◌<◌, ◌++◌, ◌∷◌, [], IfOk, IfSome, MatchOption, length};
ghost use Rattle.std.specs.Arc.{arc_value};
ghost use Rattle.crossbeam_queue.specs.Passes.{IsPassOf, IsSamePass, ruled_capacity};
ghost use Rattle.ruled_pipe.specs.Rule.{known_by, consumer, size_of};
ghost use Rattle.ruled_pipe.specs.Consumer.{looked, new_taker, took};

use crate::entry::Entry;
use crate::notes::{Added, Notes};
use crate::pace::{Pace, ROOM};
use crate::rule::{Queue, Seat, Takes};
use std::alloc::{AllocError, Global};
use std::marker::{Brand, Model};
use std::sync::{Arc, Wait};

/// The consumer's end of a pipe. Contracts see it as its pipe, how many producers the pipe has, its
/// capacity, what it took, and for each empty look how much it had taken before.
pub struct Consumer<T> {
    pub(crate) queue: Arc<Queue<T>, Global>,
    pub(crate) seat: Seat<T>,
    pub(crate) looks: Notes<usize>,
    pub(crate) pace: Pace,
    pub(crate) producers: usize,
}

impl<T> Model for Consumer<T> {
    ghost use Rattle.std.specs.Prelude.{◌≡◌, []};
    ghost use Rattle.std.specs.Arc.{arc_value};
    ghost use Rattle.crossbeam_queue.specs.Passes.{IsPassOf, ruled_capacity};
    ghost use Rattle.ruled_pipe.specs.Rule.{known_by, consumer, size_of};
    ghost use Rattle.ruled_pipe.specs.Consumer.{Taker};

    ghost Value = { Taker T };

    ghost view = { λ c. record { pipe = c.seat.table_id; producers = c.producers; capacity = ruled_capacity (arc_value c.queue); taken = (known_by c.seat).taken; looks = c.looks } };

    ghost invariant = { λ c. IsPassOf (arc_value c.queue) c.seat × (known_by c.seat ≡ consumer (size_of (ruled_capacity (arc_value c.queue)) c.producers) (known_by c.seat).taken) };
}

impl<T: Drop> Drop for Consumer<T> {
    fn drop(self) {
        let Consumer {
            queue: _,
            seat: _,
            looks: _,
            pace: _,
            producers: _,
        } = self;
    }
}

impl<T: Drop> Consumer<T> {
    /// Takes the entry at the front. At `None` the look is noted; no clause says that the queue was empty: an
    /// entry that a producer is still writing isn't there yet, nor is what stands behind it. It takes no memory.
    /// Where many looks in a row found an entry, and few are held, it spins for some microseconds first, so that
    /// entries gather.
    pub fn take<R: Wait>(&mut self, rt: &R) -> Option<Entry<T>>
        ensures step { MatchOption result (self.new ≡ looked self.old) (λ e. self.new ≡ took self.old e) }
        ensures below { IfSome result (λ e. e.from < self.old.producers) }
    {
        keep_apart(rt, &self.queue, &mut self.seat, &mut self.pace);
        // it waits for no producer, which may have lost its processor halfway through an entry
        match self.queue.try_pop_as::<Takes>(&mut self.seat) {
            Some(entry) => Some(entry),
            None => {
                self.pace = Pace::new();
                note_look::<T, Brand, R>(rt, &mut self.looks, &self.seat);
                None
            }
        }
    }

    // Its right to take, once it takes no more.
    pub(crate) fn into_seat(self) -> Seat<T>
        ensures queue { (result.table_id ≡ self.pipe) × (result.me.1 ≡ []) }
        ensures known { known_by result ≡ consumer (size_of self.capacity self.producers) self.taken }
    {
        let Consumer {
            queue: _,
            seat,
            looks: _,
            pace: _,
            producers: _,
        } = self;
        seat
    }
}

// Counts what is held where the pace asks for it, and waits a little where that is few. It takes nothing.
fn keep_apart<T: Drop, R: Wait>(
    rt: &R,
    queue: &Arc<Queue<T>, Global>,
    seat: &mut Seat<T>,
    pace: &mut Pace,
)
    requires { IsPassOf (arc_value queue.now) seat.old × (n p : ℕ) × (known_by seat.old ≡ consumer (size_of n p) (known_by seat.old).taken) }
    ensures { IsSamePass seat.old seat.new × (known_by seat.new ≡ known_by seat.old) }
{
    if queue.capacity() < ROOM {
        return;
    }
    if pace.asks() {
        let held = queue.len_as::<Takes, R>(rt, seat);
        pace.keep(held);
    }
}

#[cold]
#[inline(never)]
fn note_look<T, K: Added<usize>, R: Wait>(rt: &R, looks: &mut Notes<usize>, seat: &Seat<T>)
    requires { K.added ≡ length (known_by seat.now).taken ∷ [] }
    ensures { looks.new ≡ looks.old ++ length (known_by seat.now).taken ∷ [] }
{
    let _ = seat;
    looks.append::<K, R>(rt);
}

// The consumer's end, of its seat.
pub(crate) fn consumer_of<T: Drop>(
    alloc: Global,
    queue: &Arc<Queue<T>, Global>,
    seat: Seat<T>,
    producers: usize,
) -> Result<Consumer<T>, AllocError>
    requires { IsPassOf (arc_value queue.now) seat × (known_by seat ≡ consumer (size_of (ruled_capacity (arc_value queue.now)) producers) []) }
    ensures { IfOk result (λ c. c ≡ new_taker (arc_value queue.now).table.shared.table_id producers (ruled_capacity (arc_value queue.now))) }
{
    let looks = Notes::new(alloc)?;
    let queue = Arc::try_clone(queue)?;
    Ok(Consumer {
        queue,
        seat,
        looks,
        pace: Pace::new(),
        producers,
    })
}
