//! What a forwarder does with what it took.

ghost use Rattle.std.specs.Prelude.{◌≡◌, ◌-◌, ◌^◌, ◌<◌, MatchBool, is_ok};
ghost use Rattle.packet_ledger.specs.Share.{HasRoom, IsPosted, MayRaise};
ghost use Rattle.worker_order.specs.Shares.{raise};
ghost use Rattle.router_rules.specs.Links.{has_two_bands};
ghost use Rattle.worker_forwarder.specs.Forwarding.{Delivered, HandedOn, PassedMet, Swept, count_of, with_share};

use crate::band::Taken;
use packet_ledger::{Book, Share};
use process_packet::Cause;
use router_rules::{LinkIndex, Shared};
use ruled_pipe::Producer;
use std::alloc::Global;
use std::marker::Model;
use std::sync::{Arc, Wait};
use worker_parts::{Buffer, EgressPacket, RunBrand, Sink, give_back};

/// A link's sink, the ends of the links' pipes of free buffers, and the counts.
pub struct Delivery<N: RunBrand, K: Sink> {
    pub(crate) shared: Arc<Shared, Global>,
    pub(crate) sink: K,
    pub(crate) free: Vec<Producer<Buffer>>,
    pub(crate) share: Share<N>,
}

impl<N: RunBrand, K: Sink> Model for Delivery<N, K> {
    ghost use Rattle.std.specs.Prelude.{◌≡◌, length, Some};
    ghost use Rattle.std.specs.Arc.{arc_value};
    ghost use Rattle.router_rules.specs.Links.{link_count};
    ghost use Rattle.worker_forwarder.specs.Forwarding.{Delivery as Seen};

    ghost Value = { Seen K };

    ghost view = { λ d. record { config = (arc_value d.shared).config; sink = d.sink; free = d.free.items; share = d.share } };

    ghost invariant = { λ d. (N.config ≡ Some (arc_value d.shared).config) × (length d.free.items ≡ link_count (arc_value d.shared).config) };
}

impl<N: RunBrand, K: Sink + Drop> Drop for Delivery<N, K> {
    fn drop(self) {
        let Delivery {
            shared: _,
            sink: _,
            free: _,
            share: _,
        } = self;
    }
}

// Counts what was handed to a sink.
fn count<N: RunBrand>(share: &mut Share<N>, took: bool, answer: bool)
    requires { MayRaise share.old.counts }
    ensures { share.new ≡ raise (count_of took answer) share.old }
{
    if !took {
        share.fate(Cause::SendFailed);
    } else if answer {
        share.answered();
    } else {
        share.sent();
    }
}

impl<N: RunBrand, K: Sink> Delivery<N, K> {
    /// The sink, the ends of the pipes of free buffers, and the counts.
    pub fn into_parts(self) -> (K, Vec<Producer<Buffer>>, Share<N>)
        ensures { (result.0 ≡ self.sink) × (result.1.items ≡ self.free) × (result.2 ≡ self.share) }
    {
        let Delivery {
            shared: _,
            sink,
            free,
            share,
        } = self;
        (sink, free, share)
    }

    /// Whether each of its counts can still be raised.
    pub fn has_room(&self) -> bool
        ensures { MatchBool result (HasRoom self.now.share.counts) (HasRoom self.now.share.counts → ⊥) }
    {
        self.share.has_room()
    }

    /// How often the sink failed.
    pub fn failures(&self) -> u64
        ensures { result ≡ K.failed self.now.sink }
    {
        self.sink.failures()
    }

    /// Whether a link has two bands.
    pub fn has_two_bands(&self, link: LinkIndex) -> bool
        ensures { result ≡ has_two_bands self.now.config link }
    {
        self.shared.ports.two_bands(link)
    }

    /// Hands a packet to the sink, or sweeps it where its pipe was closed.
    pub fn deliver<R: Wait>(&mut self, rt: &R, shut: bool, egress_packet: EgressPacket<N>)
        requires sink { K.failed self.old.sink < 2 ^ 64 - 1 }
        requires room { MayRaise self.old.share.counts }
        ensures { Delivered K.told K.failed K.same shut egress_packet self.old self.new }
    {
        if shut {
            self.sweep(rt, egress_packet)
        } else {
            self.hand_on(rt, egress_packet)
        }
    }

    /// Passes on what was met in a pipe that is shut, or not.
    pub fn pass<R: Wait>(&mut self, rt: &R, shut: bool, met: Taken<EgressPacket<N>>)
        requires sink { K.failed self.old.sink < 2 ^ 64 - 1 }
        requires room { MayRaise self.old.share.counts }
        ensures { PassedMet K.told K.failed K.same shut met self.old self.new }
    {
        match met {
            Taken::Mark => {}
            Taken::Packet(egress_packet) => self.deliver(rt, shut, egress_packet),
        }
    }

    fn hand_on<R: Wait>(&mut self, rt: &R, egress_packet: EgressPacket<N>)
        requires sink { K.failed self.old.sink < 2 ^ 64 - 1 }
        requires room { MayRaise self.old.share.counts }
        ensures { HandedOn K.told K.failed K.same egress_packet self.old self.new }
    {
        let link = egress_packet.arrived();
        let took = self
            .sink
            .send(&egress_packet.named(), egress_packet.bytes())
            .is_ok();
        count(&mut self.share, took, egress_packet.is_answer());
        give_back(rt, &mut self.free, link, egress_packet.into_buffer());
    }

    // It is seldom called, and stays out of the way of what is handed on.
    #[cold]
    #[inline(never)]
    fn sweep<R: Wait>(&mut self, rt: &R, egress_packet: EgressPacket<N>)
        requires { MayRaise self.old.share.counts }
        ensures { Swept egress_packet self.old self.new }
    {
        let link = egress_packet.arrived();
        self.share.fate(Cause::Closed);
        give_back(rt, &mut self.free, link, egress_packet.into_buffer());
    }

    /// Posts the counts.
    pub fn post<R: Wait>(&mut self, rt: &R, book: &Book<N>)
        ensures share { IsPosted self.old.share self.new.share }
        ensures same { self.new ≡ with_share self.new.share self.old }
    {
        book.post(rt, &mut self.share);
    }
}
