//! Ends as workers and the controller have them, and as they come back.

ghost use Rattle.std.specs.Prelude.{◌≡◌, ◌∷◌, ◌++◌, ◌≤◌, ◌<◌, ◌+◌, ◌/◌, [], ℕ, List, IfOk, false, is_some, length, map, slice_get};
ghost use Rattle.order_laws.specs.Deeds.{Each};
ghost use Rattle.ruled_pipe.specs.Pipe.{Shape};
ghost use Rattle.ruled_pipe.specs.Producer.{Sender};
ghost use Rattle.worker_parts.specs.Outlet.{offering};
ghost use Rattle.worker_parts.specs.Outlets.{are_used};
ghost use Rattle.run_ends.specs.Opened.{AreMadeOf, made_pipes};
ghost use Rattle.run_ends.specs.Rows.{AreEndsOf, AreFor, fresh_ends};
ghost use Rattle.run_ends.specs.Shutting.{AreNew, shutting};
ghost use Rattle.run_ends.specs.TakenBack.{HaveBack};

use router_rules::{LinkIndex, Shared};
use ruled_pipe::{Keeper, Producer};
use run_ends::{EndMaker, Shutter, next_ends};
use std::alloc::{AllocError, Global};
use std::sync::Arc;
use worker_parts::{Event, Outlet};

// The event of a number, for one end more; none where there is no such event.
fn event_at(events: &[Event], number: usize) -> Result<Option<Event>, AllocError>
    ensures { IfOk result (λ e. is_some e ≡ is_some (slice_get events.now number)) }
{
    match events.get(number) {
        Some(event) => Ok(Some(Arc::try_clone(event)?)),
        None => Ok(None),
    }
}

// Each consumer that is woken has this number of pipes.
#[derive(Drop)]
struct Waking<'a> {
    events: &'a [Event],
    pipes: usize,
}

impl<'a, T: Drop> EndMaker<T, Outlet<T>> for Waking<'a> {
    ghost use Rattle.std.specs.Prelude.{◌≡◌, ◌<◌, ◌/◌, false, is_some, slice_get};
    ghost use Rattle.worker_parts.specs.Outlet.{offering};

    ghost fits = { λ m at. 0 < m.pipes };

    ghost makes = { λ m at s o. o ≡ offering s false (is_some (slice_get m.events.now (at / m.pipes))) };

    fn make(&self, alloc: Global, at: usize, producer: Producer<T>) -> Result<Outlet<T>, AllocError>
        requires fits { 0 < self.now.pipes }
        requires new { (producer.offers ≡ []) × (producer.refusals ≡ []) }
        ensures { IfOk result (λ o. o ≡ offering producer false (is_some (slice_get self.now.events.now (at / self.now.pipes)))) }
    {
        let _ = alloc;
        let event = event_at(self.events, at / self.pipes)?;
        Ok(Outlet::of(producer, event))
    }
}

/// A worker's next ends, one of each pipe. Each notifies the event of its pipe's consumer, where
/// each consumer has this number of pipes; none where there is no such event.
pub fn outlets<T: Drop>(
    alloc: Global,
    pipes: &mut Vec<Keeper<T>>,
    events: &[Event],
    each: usize,
) -> Result<Vec<Outlet<T>>, AllocError>
    requires pipes { (k : ℕ) × (n : ℕ) × (ss : List Shape) × (pipes.old.items ≡ made_pipes k ss) × AreFor n ss × (k < n) }
    requires each { 0 < each }
    ensures made { IfOk result (λ _. (k : ℕ) (ss : List Shape) → pipes.old.items ≡ made_pipes k ss → pipes.new.items ≡ made_pipes (k + 1) ss) }
    ensures ends { IfOk result (λ o. (k : ℕ) (ss : List Shape) → pipes.old.items ≡ made_pipes k ss → AreMadeOf (λ at s e. e ≡ offering s false (is_some (slice_get events.now (at / each)))) 0 (fresh_ends k ss) o.items) }
{
    let ends = next_ends(
        alloc,
        pipes,
        &Waking {
            events,
            pipes: each,
        },
    )?;
    Ok(ends)
}

// Whether the pipe at this place is used: the low band's of a link, or the high band's of one with
// two.
pub(crate) fn is_used(shared: &Shared, at: usize) -> bool
    requires { at < 66 }
    ensures { result ≡ are_used shared.now.config at }
{
    if at % 2 == 0 {
        return true;
    }
    let link = LinkIndex::of((at / 2) as u16);
    shared.ports.two_bands(link)
}

#[derive(Drop)]
struct Shutting<'a> {
    shared: &'a Shared,
}

impl<'a, T: Drop> EndMaker<T, Shutter<T>> for Shutting<'a> {
    ghost use Rattle.std.specs.Prelude.{◌≡◌, ◌<◌, false};
    ghost use Rattle.run_ends.specs.Shutting.{shutting};
    ghost use Rattle.worker_parts.specs.Outlets.{are_used};

    ghost fits = { λ m at. at < 66 };

    ghost makes = { λ m at s h. h ≡ shutting s (are_used m.shared.now.config at) false false };

    fn make(
        &self,
        alloc: Global,
        at: usize,
        producer: Producer<T>,
    ) -> Result<Shutter<T>, AllocError>
        requires fits { at < 66 }
        requires new { (producer.offers ≡ []) × (producer.refusals ≡ []) }
        ensures { IfOk result (λ h. h ≡ shutting producer (are_used self.now.shared.now.config at) false false) }
    {
        let _ = alloc;
        Ok(Shutter::of(producer, is_used(self.shared, at)))
    }
}

/// The controller's ends of the links' pipes, two of each link. Of a link with one band the high
/// band's pipe is not used.
pub fn shutters<T: Drop>(
    alloc: Global,
    shared: &Shared,
    pipes: &mut Vec<Keeper<T>>,
) -> Result<Vec<Shutter<T>>, AllocError>
    requires pipes { (k : ℕ) × (n : ℕ) × (ss : List Shape) × (pipes.old.items ≡ made_pipes k ss) × AreFor n ss × (k < n) }
    requires few { length pipes.old.items ≤ 66 }
    ensures made { IfOk result (λ _. (k : ℕ) (ss : List Shape) → pipes.old.items ≡ made_pipes k ss → pipes.new.items ≡ made_pipes (k + 1) ss) }
    ensures ends { IfOk result (λ h. (k : ℕ) (ss : List Shape) → pipes.old.items ≡ made_pipes k ss → AreNew (are_used shared.now.config) 0 (fresh_ends k ss) h.items) }
{
    let ends = next_ends(alloc, pipes, &Shutting { shared })?;
    Ok(ends)
}

/// An end that comes back as its producer.
pub trait End<T> {
    ghost use Rattle.std.specs.Prelude.{◌≡◌};
    ghost use Rattle.ruled_pipe.specs.Producer.{Sender};

    /// Its producer.
    ghost sender: { Self → Sender T };

    /// What is known of this.
    ghost told: { Self → Type 0 };

    /// The producer.
    fn into_end(self) -> Producer<T>
        ensures same { result ≡ sender self }
        ensures told { told self };
}

impl<T> End<T> for Outlet<T> {
    ghost use Rattle.worker_parts.specs.Outlet.{IsMarked};

    ghost sender = { λ o. o.sender };

    ghost told = { λ o. IsMarked o.sender o.ended };

    fn into_end(self) -> Producer<T> {
        self.into_producer()
    }
}

impl<T: Drop> End<T> for Shutter<T> {
    ghost use Rattle.run_ends.specs.Shutting.{IsShutting};

    ghost sender = { λ h. h.end };

    ghost told = { λ h. IsShutting h };

    fn into_end(self) -> Producer<T> {
        self.into_producer()
    }
}

/// The pipes take back the next worker's ends, one of each, in order. It takes no memory.
pub fn take_back<T: Drop, E: End<T> + Drop>(pipes: &mut Vec<Keeper<T>>, ends: Vec<E>)
    requires { (rows : List (List (Sender T))) × (ss : List Shape) × HaveBack rows ss pipes.old.items × AreEndsOf (length rows) ss (map E.sender ends.items) }
    ensures back { (rows : List (List (Sender T))) (ss : List Shape) → HaveBack rows ss pipes.old.items → HaveBack (rows ++ map E.sender ends.items ∷ []) ss pipes.new.items }
    ensures told { Each (λ e. E.told e) ends.items }
{
    let mut at = 0;
    for end in ends {
        let producer = end.into_end();
        pipes[at].absorb(producer);
        at += 1;
    }
}
