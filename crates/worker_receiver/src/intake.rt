//! What a receiver does with a datagram.

ghost use Rattle.std.specs.Prelude.{◌≡◌, ◌+◌, ◌-◌, ◌^◌, ◌<◌, ◌≤◌, length, take, true, MatchBool};
ghost use Rattle.packet_ledger.specs.Share.{HasRoom, IsPosted, MayRaise};
ghost use Rattle.worker_order.specs.Heard.{arrival};
ghost use Rattle.worker_receiver.specs.Intake.{PassedIn};
ghost use Rattle.worker_receiver.specs.Receiving.{with_processors, with_share};
ghost use Rattle.worker_laws.specs.Forwards.{AddsTo};
ghost use Rattle.worker_parts.specs.Heard.{failures_of, fits, heard};
ghost use Rattle.worker_parts.specs.Outlets.{AreUnended, Trying};
ghost use Rattle.worker_parts.specs.Buffer.{buffer_len};

use crate::pool::Pool;
use packet_ledger::{Book, Share};
use process_packet::{Cause, Underlay};
use router_rules::{Interface, LinkIndex, Shared, processor_or_fault};
use ruled_pipe::Consumer;
use std::alloc::Global;
use std::marker::Model;
use std::sync::{Arc, Wait};
use worker_parts::{Buffer, NextLen, Outlet, Packet, RunBrand, Source, end_all, offer_at};

/// A receiver's side of its link: its buffers, its ends of the processors' pipes, and its counts.
pub struct Intake<N: RunBrand> {
    pub(crate) shared: Arc<Shared, Global>,
    pub(crate) link: LinkIndex,
    pub(crate) interface: Interface,
    pub(crate) pool: Pool,
    pub(crate) processors: Vec<Outlet<Packet<N>>>,
    pub(crate) share: Share<N>,
}

impl<N: RunBrand> Model for Intake<N> {
    ghost use Rattle.std.specs.Prelude.{◌≡◌, length, Some};
    ghost use Rattle.std.specs.Arc.{arc_value};
    ghost use Rattle.worker_receiver.specs.Intake.{Taking};
    ghost use Rattle.worker_parts.specs.Items.{StandsIn};

    ghost Value = { Taking };

    ghost view = { λ i. record { room = i.pool.room; side = record { config = (arc_value i.shared).config; link = i.link; interface = i.interface; stock = i.pool.stock; processors = i.processors.items; share = i.share } } };

    ghost invariant = { λ i. (N.config ≡ Some (arc_value i.shared).config) × StandsIn N.config i.link i.interface × (length i.processors.items ≡ (arc_value i.shared).config.processors) };
}

impl<N: RunBrand> Drop for Intake<N> {
    fn drop(self) {
        let Intake {
            shared: _,
            link: _,
            interface: _,
            pool: _,
            processors: _,
            share: _,
        } = self;
    }
}

impl<N: RunBrand> Intake<N> {
    /// Its ends of pipes, and its counts.
    pub fn into_parts(self) -> (Vec<Outlet<Packet<N>>>, Consumer<Buffer>, Share<N>)
        ensures { (result.0.items ≡ self.side.processors) × (result.1 ≡ self.side.stock.free) × (result.2 ≡ self.side.share) }
    {
        let Intake {
            shared: _,
            link: _,
            interface: _,
            pool,
            processors,
            share,
        } = self;
        (processors, pool.into_free(), share)
    }

    /// Passes the first bytes of what was read on as the datagram of a number.
    pub fn pass_in<R: Wait>(&mut self, rt: &R, number: u64, from: Underlay, now: u64, len: usize)
        requires len { len ≤ buffer_len }
        requires room { MayRaise self.old.side.share.counts }
        requires unended { AreUnended self.old.side.processors }
        ensures some { 0 < length self.old.side.processors }
        ensures passed { PassedIn (arrival self.old.side.link self.old.side.interface number from now (take len self.old.room)) self.old.side self.new.side }
    {
        self.share.received(1);
        let at = match processor_or_fault(
            &self.shared.config,
            self.interface.id(),
            self.pool.front(len),
        ) {
            Ok(at) => at,
            Err(why) => return self.share.fate(why),
        };
        let Some(buffer) = self.pool.another(rt) else {
            return self.share.fate(Cause::NoBuffer);
        };
        let read = self.pool.exchange(buffer);
        let packet = Packet::new(self.link, self.interface, number, from, now, len, read);
        if let Err(packet) = offer_at(rt, &mut self.processors, at, packet) {
            self.pool.keep(packet.into_buffer());
            self.share.fate(Cause::ProcessorFull);
        }
    }

    /// Whether each of its counts can still be raised.
    pub fn has_room(&self) -> bool
        ensures { MatchBool result (HasRoom self.now.side.share.counts) (HasRoom self.now.side.share.counts → ⊥) }
    {
        self.share.has_room()
    }

    /// Reads the source's next answer.
    pub fn read<S: Source>(&mut self, source: &mut S) -> NextLen
        requires { S.failed source.old < 2 ^ 64 - 1 }
        ensures side { self.new.side ≡ self.old.side }
        ensures fits { fits result }
        ensures failed { S.failed source.new ≡ S.failed source.old + failures_of result }
        ensures told { AddsTo (S.told source.old) (heard self.new.room result) (S.told source.new) }
        ensures device { S.same source.old source.new }
    {
        self.pool.read(source)
    }

    /// Tries the end marks that are owed, and says whether all are there.
    pub fn end<R: Wait>(&mut self, rt: &R) -> bool
        ensures tried { Trying (λ j. true) self.old.side.processors self.new.side.processors result }
        ensures same { self.new.side ≡ with_processors self.new.side.processors self.old.side }
    {
        end_all(rt, &mut self.processors)
    }

    /// Posts its counts.
    pub fn post<R: Wait>(&mut self, rt: &R, book: &Book<N>)
        ensures share { IsPosted self.old.side.share self.new.side.share }
        ensures same { self.new.side ≡ with_share self.new.side.share self.old.side }
    {
        book.post(rt, &mut self.share);
    }
}
