//! Closing a link by its marks.

ghost use Rattle.std.specs.Prelude.{◌≡◌, ◌+◌, ◌*◌, ◌<◌, ℕ, length, slice_index_or, true, false};
ghost use Rattle.std.specs.Arc.{arc_value};
ghost use Rattle.order_laws.specs.Item.{Outgoing};
ghost use Rattle.run_ends.specs.Shutting.{AreUnended, Shutting};
ghost use Rattle.router_rules.specs.Links.{has_two_bands, link_count};
ghost use Rattle.router_rules.specs.Rules.{kinds};
ghost use Rattle.worker_parts.specs.Outlets.{are_used};
ghost use Rattle.run_pipes.specs.Closing.{Closing, ClosesMarks, StayEnds};

use crate::waking::notify_one;
use router_rules::{Interface, LinkIndex, Shared};
use run_ends::{Shutter, close_at};
use std::alloc::Global;
use std::sync::{Arc, Wait};
use worker_parts::{EgressPacket, Event, RunBrand};

/// Why a link was not closed.
#[derive(Clone, Copy, PartialEq, Eq)]
pub enum CloseFault {
    /// A closing mark was refused; one that was accepted stays.
    Full,
    /// There is no such link.
    Unknown,
    /// All its closing marks are there.
    AlreadyClosed,
}

// Closes a link of one band.
fn close_single<T: Drop, R: Wait>(
    rt: &R,
    shutters: &mut Vec<Shutter<T>>,
    low: usize,
) -> Result<(), CloseFault>
    requires there { low < length shutters.old.items }
    requires used { (d : Shutting T) → (slice_index_or shutters.old.items low d).used ≡ true }
    requires unended { AreUnended shutters.old.items }
    ensures closes { ClosesMarks false low result shutters.old.items shutters.new.items }
    ensures stay { StayEnds shutters.old.items shutters.new.items }
{
    if shutters[low].is_closed() {
        return Err(CloseFault::AlreadyClosed);
    }
    if close_at(rt, shutters, low) {
        Ok(())
    } else {
        Err(CloseFault::Full)
    }
}

// Closes a link of two bands, the high one first.
fn close_double<T: Drop, R: Wait>(
    rt: &R,
    shutters: &mut Vec<Shutter<T>>,
    low: usize,
) -> Result<(), CloseFault>
    requires there { low + 1 < length shutters.old.items }
    requires used { (d : Shutting T) → (slice_index_or shutters.old.items low d).used ≡ true }
    requires high_used { (d : Shutting T) → (slice_index_or shutters.old.items (low + 1) d).used ≡ true }
    requires unended { AreUnended shutters.old.items }
    ensures closes { ClosesMarks true low result shutters.old.items shutters.new.items }
    ensures stay { StayEnds shutters.old.items shutters.new.items }
{
    let high_was = shutters[low + 1].is_closed();
    let low_was = shutters[low].is_closed();
    if high_was && low_was {
        return Err(CloseFault::AlreadyClosed);
    }
    let high = close_at(rt, shutters, low + 1);
    let low = close_at(rt, shutters, low);
    if high && low {
        Ok(())
    } else {
        Err(CloseFault::Full)
    }
}

// Tries each closing mark of a link that isn't there yet, the high band's first.
fn close_both<T: Drop, R: Wait>(
    rt: &R,
    shared: &Shared,
    shutters: &mut Vec<Shutter<T>>,
    link: LinkIndex,
) -> Result<(), CloseFault>
    requires there { link < link_count shared.now.config }
    requires count { length shutters.old.items ≡ 2 * link_count shared.now.config }
    requires used { (j : ℕ) (d : Shutting T) → j < length shutters.old.items → (slice_index_or shutters.old.items j d).used ≡ are_used shared.now.config j }
    requires unended { AreUnended shutters.old.items }
    ensures closes { ClosesMarks (has_two_bands shared.now.config link) (2 * link) result shutters.old.items shutters.new.items }
    ensures stay { StayEnds shutters.old.items shutters.new.items }
{
    let low = 2 * link.place();
    if shared.ports.two_bands(link) {
        close_double(rt, shutters, low)
    } else {
        close_single(rt, shutters, low)
    }
}

/// What closes the links while a router runs: its ends of their pipes, and the events of the forwarders.
#[derive(Drop)]
pub struct Controller<N: RunBrand> {
    pub shared: Arc<Shared, Global>,
    pub shutters: Vec<Shutter<EgressPacket<N>>>,
    pub forwarder_events: Vec<Event>,
}

impl<N: RunBrand> Controller<N> {
    /// Closes the link with an interface, and wakes its forwarder.
    pub fn close<R: Wait>(&mut self, rt: &R, interface: u16) -> Result<(), CloseFault>
        requires count { length self.old.shutters.items ≡ 2 * link_count (arc_value self.old.shared).config }
        requires used { (j : ℕ) (d : Shutting (Outgoing kinds)) → j < length self.old.shutters.items → (slice_index_or self.old.shutters.items j d).used ≡ are_used (arc_value self.old.shared).config j }
        requires unended { AreUnended self.old.shutters.items }
        ensures closing { Closing (arc_value self.old.shared).config interface result self.old.shutters.items self.new.shutters.items }
        ensures stay { StayEnds self.old.shutters.items self.new.shutters.items }
        ensures shared { self.new.shared ≡ self.old.shared }
    {
        let link = self.shared.ports.index(Interface::of(interface));
        if link.place() >= self.shared.ports.count() {
            return Err(CloseFault::Unknown);
        }
        let closed = close_both(rt, &self.shared, &mut self.shutters, link);
        // The forwarder may sleep before its empty pipes.
        notify_one(self.forwarder_events.as_slice(), link.place());
        closed
    }
}
