//! A producer's end.

ghost use Rattle.std.specs.Prelude.{◌≡◌, ◌<◌, ◌≤◌, ◌+◌, ◌++◌, ◌∷◌, [], IfOk, IfErr, MatchResult, length};
ghost use Rattle.std.specs.Arc.{arc_value};
ghost use Rattle.crossbeam_queue.specs.Passes.{IsPassOf, ruled_capacity};
ghost use Rattle.ruled_pipe.specs.Rule.{known_by, keeper, left, size_of};
ghost use Rattle.ruled_pipe.specs.Producer.{entry, refusal, offered, refused, AllFull, WasFull, new_sender};

use crate::entry::{Entry, Load, Mark, Refusal};
use crate::notes::{Added, Notes};
use crate::rule::{Adds, Leaves, Offers, Queue, Seat};
use std::alloc::{AllocError, Global};
use std::marker::{Brand, Model};
use std::sync::{Arc, Wait};

/// A producer's end of a pipe. Contracts see it as its pipe, its number, how many producers the pipe
/// has, the pipe's capacity, what it offered and was accepted, and its refusals.
pub struct Producer<T> {
    pub(crate) queue: Arc<Queue<T>, Global>,
    pub(crate) seat: Seat<T>,
    pub(crate) notes: Notes<Refusal<T>>,
    pub(crate) number: usize,
}

impl<T> Model for Producer<T> {
    ghost use Rattle.std.specs.Prelude.{◌≡◌, ◌<◌};
    ghost use Rattle.std.specs.Arc.{arc_value};
    ghost use Rattle.crossbeam_queue.specs.Passes.{IsPassOf, ruled_capacity};
    ghost use Rattle.ruled_pipe.specs.Rule.{known_by, producer, size_of};
    ghost use Rattle.ruled_pipe.specs.Producer.{Sender, AllFull};

    ghost Value = { Sender T };

    ghost view = { λ p. record { pipe = p.seat.table_id; number = p.number; producers = (known_by p.seat).size.producers; capacity = ruled_capacity (arc_value p.queue); offers = (known_by p.seat).offers; refusals = p.notes } };

    ghost invariant = { λ p. IsPassOf (arc_value p.queue) p.seat × (known_by p.seat ≡ producer p.number (size_of (ruled_capacity (arc_value p.queue)) (known_by p.seat).size.producers) (known_by p.seat).offers) × AllFull (known_by p.seat).size.producers p.number (ruled_capacity (arc_value p.queue)) (known_by p.seat).offers p.notes × (p.number < (known_by p.seat).size.producers) };
}

impl<T: Drop> Drop for Producer<T> {
    fn drop(self) {
        let Producer {
            queue: _,
            seat: _,
            notes: _,
            number: _,
        } = self;
    }
}

/// The pipe was full, and gives back what was pushed.
#[derive(Drop)]
pub struct Full<T>(pub T);

impl<T: Drop> Producer<T> {
    /// Offers an item. At `Full` the item comes back, and the refusal is noted: there are lists of entries taken
    /// and held, as many held as the capacity, in which this end's are what it had pushed. That these were the
    /// queue's own no clause says with several producers; with one, as many as the capacity had been accepted.
    /// It takes no memory.
    pub fn offer<R: Wait>(&mut self, rt: &R, item: T) -> Result<(), Full<T>>
        ensures step { MatchResult result (λ _. self.new ≡ offered self.old (entry self.old.number (Load.Payload item))) (λ full. (full.0 ≡ item) × (self.new ≡ refused self.old (entry self.old.number (Load.Payload item)))) }
        ensures full { IfErr result (λ _. WasFull self.old.producers self.old.number self.old.capacity self.old.offers (refusal (entry self.old.number (Load.Payload item)) (length self.old.offers))) }
        ensures alone { self.old.producers ≡ 1 → IfErr result (λ _. self.old.capacity ≤ length self.old.offers) }
    {
        match self.push(rt, Load::Payload(item)) {
            Ok(()) => Ok(()),
            Err(Load::Payload(item)) => Err(Full(item)),
            Err(Load::Marked(_)) => unreachable!(),
        }
    }

    /// Pushes a mark, as `offer` does an item.
    pub fn mark<R: Wait>(&mut self, rt: &R, mark: Mark) -> Result<(), Full<Mark>>
        ensures step { MatchResult result (λ _. self.new ≡ offered self.old (entry self.old.number (Load.Marked mark))) (λ full. (full.0 ≡ mark) × (self.new ≡ refused self.old (entry self.old.number (Load.Marked mark)))) }
        ensures full { IfErr result (λ _. WasFull self.old.producers self.old.number self.old.capacity self.old.offers (refusal (entry self.old.number (Load.Marked mark)) (length self.old.offers))) }
        ensures alone { self.old.producers ≡ 1 → IfErr result (λ _. self.old.capacity ≤ length self.old.offers) }
    {
        match self.push(rt, Load::Marked(mark)) {
            Ok(()) => Ok(()),
            Err(_) => Err(Full(mark)),
        }
    }

    // Pushes an entry, or notes that it was refused.
    #[inline(always)]
    fn push<R: Wait>(&mut self, rt: &R, load: Load<T>) -> Result<(), Load<T>>
        ensures step { MatchResult result (λ _. self.new ≡ offered self.old (entry self.old.number load)) (λ back. (back ≡ load) × (self.new ≡ refused self.old (entry self.old.number load))) }
        ensures full { IfErr result (λ _. WasFull self.old.producers self.old.number self.old.capacity self.old.offers (refusal (entry self.old.number load) (length self.old.offers))) }
        ensures alone { self.old.producers ≡ 1 → IfErr result (λ _. self.old.capacity ≤ length self.old.offers) }
    {
        let entry = Entry {
            from: self.number,
            load,
        };
        match self.queue.push_as::<Offers, R>(rt, &mut self.seat, entry) {
            Ok(()) => Ok(()),
            Err(entry) => {
                note_refusal::<T, Brand, R>(rt, &mut self.notes, &entry, &self.seat);
                Err(entry.load)
            }
        }
    }

    // It leaves its pipe: the seat of another end takes it in.
    pub(crate) fn leave<K: Added<Refusal<T>>>(self, queue: &Queue<T>, seat: &mut Seat<T>)
        requires picked { K.added ≡ self.refusals }
        requires queue { IsPassOf queue.now seat.old × (self.pipe ≡ seat.old.table_id) }
        requires next { let v = known_by seat.old in (v ≡ keeper v.made v.size v.known) × (length v.known ≡ self.number) }
        ensures queue { IsPassOf queue.now seat.new × (seat.new.table_id ≡ seat.old.table_id) }
        ensures known { let v = known_by seat.old in known_by seat.new ≡ keeper v.made v.size (v.known ++ left self.number self.offers self.refusals ∷ []) }
        ensures full { AllFull self.producers self.number self.capacity self.offers self.refusals }
    {
        let Producer {
            queue: _,
            seat: own,
            notes: _,
            number: _,
        } = self;
        queue.absorb::<Leaves<K>>(seat, own);
    }
}

#[cold]
#[inline(never)]
fn note_refusal<T, K: Added<Refusal<T>>, R: Wait>(
    rt: &R,
    notes: &mut Notes<Refusal<T>>,
    entry: &Entry<T>,
    seat: &Seat<T>,
)
    requires { K.added ≡ refusal entry.now (length (known_by seat.now).offers) ∷ [] }
    ensures { notes.new ≡ notes.old ++ refusal entry.now (length (known_by seat.now).offers) ∷ [] }
{
    let _ = entry;
    let _ = seat;
    notes.append::<K, R>(rt);
}

// The next producer, made at the keeper's seat.
pub(crate) fn add<T: Drop>(
    alloc: Global,
    queue: &Arc<Queue<T>, Global>,
    seat: &mut Seat<T>,
    producers: usize,
    number: usize,
) -> Result<Producer<T>, AllocError>
    requires below { number < producers }
    requires seat { IsPassOf (arc_value queue.now) seat.old × (known_by seat.old ≡ keeper number (size_of (ruled_capacity (arc_value queue.now)) producers) []) }
    ensures seat { IsPassOf (arc_value queue.now) seat.new }
    ensures made { MatchResult result (λ p. (p ≡ new_sender seat.old.table_id number producers (ruled_capacity (arc_value queue.now))) × (known_by seat.new ≡ keeper (number + 1) (size_of (ruled_capacity (arc_value queue.now)) producers) [])) (λ _. known_by seat.new ≡ known_by seat.old) }
{
    let notes = Notes::new(alloc)?;
    let shared = Arc::try_clone(queue)?;
    let own = queue.another::<Adds>(seat);
    Ok(Producer {
        queue: shared,
        seat: own,
        notes,
        number,
    })
}
