//! A forwarder.

ghost use Rattle.std.specs.Prelude.{◌≡◌, [], false, MatchBool, Some, length};
ghost use Rattle.std.specs.Arc.{arc_value};
ghost use Rattle.packet_ledger.specs.Share.{IsNew};
ghost use Rattle.worker_order.specs.Heard.{ToldNothing};
ghost use Rattle.worker_order.specs.Keeping.{IsForwarding};
ghost use Rattle.router_rules.specs.Links.{link_count};
ghost use Rattle.worker_forwarder.specs.Forwarding.{ForwarderEnded, first_delivery, first_forwarding};
ghost use Rattle.worker_parts.specs.Told.{told_of};

use crate::band::Band;
use crate::delivery::Delivery;
use packet_ledger::{Book, Share};
use router_rules::{LinkIndex, Shared};
use ruled_pipe::{Consumer, Producer};
use std::alloc::Global;
use std::marker::Model;
use std::sync::{Arc, Wait};
use worker_parts::{Buffer, EgressPacket, RunBrand, Sink, Stage, Turn, Turns};

/// Takes what leaves from the pipes of its link, the high band's first, and hands it to the link's sink.
/// What comes after a closing mark in a pipe is swept.
pub struct Forwarder<N: RunBrand, K: Sink> {
    link: LinkIndex,
    // Whether its link has two bands, which each turn asks.
    two_bands: bool,
    low: Band<N>,
    high: Band<N>,
    // How often the sink had failed before.
    began: u64,
    delivery: Delivery<N, K>,
}

impl<N: RunBrand, K: Sink> Model for Forwarder<N, K> {
    ghost use Rattle.std.specs.Prelude.{◌≡◌};
    ghost use Rattle.router_rules.specs.Links.{has_two_bands};
    ghost use Rattle.worker_forwarder.specs.Forwarding.{Forwarding, KeepsForwarding};

    ghost Value = { Forwarding K };

    ghost view = { λ f. record { link = f.link; low = f.low; high = f.high; began = f.began; side = f.delivery } };

    ghost invariant = { λ f. (f.two_bands ≡ has_two_bands f.delivery.config f.link) × KeepsForwarding K.told K.failed f.low f.high f.began f.delivery };
}

impl<N: RunBrand, K: Sink + Drop> Drop for Forwarder<N, K> {
    fn drop(self) {
        let Forwarder {
            link: _,
            two_bands: _,
            low: _,
            high: _,
            began: _,
            delivery: _,
        } = self;
    }
}

/// A forwarder, taken apart.
#[derive(Drop)]
pub struct PartedForwarder<N: RunBrand, K> {
    pub sink: K,
    pub low: Consumer<EgressPacket<N>>,
    pub high: Consumer<EgressPacket<N>>,
    pub free: Vec<Producer<Buffer>>,
    pub share: Share<N>,
}

impl<N: RunBrand, K: Sink> Forwarder<N, K> {
    /// The forwarder of a link, over a sink that was handed nothing yet. Buffers go back
    /// by one pipe a link. Of a link with one band the high band's pipe isn't used.
    pub fn new(
        shared: Arc<Shared, Global>,
        link: LinkIndex,
        low: Band<N>,
        high: Band<N>,
        sink: K,
        free: Vec<Producer<Buffer>>,
        share: Share<N>,
    ) -> Forwarder<N, K>
        requires config { N.config ≡ Some (arc_value shared).config }
        requires low { (low.taker.taken ≡ []) × (low.shut ≡ false) }
        requires high { (high.taker.taken ≡ []) × (high.shut ≡ false) }
        requires free { length free.items ≡ link_count (arc_value shared).config }
        requires share { IsNew share }
        requires untold { ToldNothing (K.told sink) }
        ensures { result ≡ first_forwarding link low high (K.failed sink) (first_delivery (arc_value shared).config sink free.items share) }
    {
        let began = sink.failures();
        let delivery = Delivery {
            shared,
            sink,
            free,
            share,
        };
        Forwarder {
            link,
            two_bands: delivery.has_two_bands(link),
            low,
            high,
            began,
            delivery,
        }
    }

    /// Its sink, its ends of pipes and its counts, which tell what it did.
    pub fn into_parts(self) -> PartedForwarder<N, K>
        ensures parts { (result.sink ≡ self.side.sink) × (result.low ≡ self.low.taker) × (result.high ≡ self.high.taker) × (result.free.items ≡ self.side.free) × (result.share ≡ self.side.share) }
        ensures law { IsForwarding told_of self.low.taker self.high.taker self.low.shut self.high.shut (K.told self.side.sink) self.began (K.failed self.side.sink) self.side.share }
    {
        let Forwarder {
            link: _,
            two_bands: _,
            low,
            high,
            began: _,
            delivery,
        } = self;
        let (sink, free, share) = delivery.into_parts();
        PartedForwarder {
            sink,
            low: low.into_consumer(),
            high: high.into_consumer(),
            free,
            share,
        }
    }

    // Whether each end mark of its pipes was taken.
    fn is_over(&self) -> bool
        ensures { MatchBool result (ForwarderEnded self.now) (ForwarderEnded self.now → ⊥) }
    {
        if !self.low.is_over() {
            return false;
        }
        if !self.two_bands {
            return true;
        }
        self.high.is_over()
    }
}

impl<N: RunBrand, K: Sink> Stage for Forwarder<N, K> {
    ghost use Rattle.worker_forwarder.specs.Forwarding.{ForwarderEnded};
    ghost use Rattle.worker_forwarder.specs.SameForwarder.{IsSameForwarder};

    ghost same = { λ a b. IsSameForwarder K.same a b };

    ghost has_ended = { λ f. ForwarderEnded f };
}

impl<N: RunBrand, K: Sink> Turns<Book<N>> for Forwarder<N, K> {
    ghost use Rattle.std.specs.Prelude.{◌≡◌, false, MatchBool};
    ghost use Rattle.packet_ledger.specs.Share.{HasRoom, IsDrained, IsPosted};
    ghost use Rattle.worker_forwarder.specs.Forwarding.{AwaitsPush, Forwarded, posted};
    ghost use Rattle.worker_forwarder.specs.SameForwarder.{forwarder_self, forwarder_then};
    ghost use Rattle.packet_ledger.proofs.Posting.{posted_drains};
    ghost use Rattle.worker_parts.specs.declared.turn.Turn.{Turn};
    ghost use Rattle.std.proofs.Common.{subst};
    ghost use Rattle.worker_forwarder.specs.ForwarderLaws.{forwarded_ended, forwarded_same, forwarder_as, forwarder_posted, forwarder_still};

    ghost may_turn = { λ f. HasRoom f.side.share.counts };

    ghost has_turned = { λ turn a b. Forwarded K.told K.failed K.same turn a b };

    ghost awaits = { λ f said. MatchBool said (AwaitsPush K.failed f) (AwaitsPush K.failed f → ⊥) };

    ghost has_waited = { λ waited a b. (waited ≡ false) × (b ≡ a) };

    ghost has_posted = { λ a b. IsPosted a.side.share b.side.share × (b ≡ posted b.side.share a) };

    ghost is_drained = { λ f. IsDrained f.side.share };

    fn has_room(&self) -> bool {
        self.delivery.has_room()
    }

    /// Takes one entry of the high band's pipe, or, where that was seen empty, of the low one's. A sink
    /// whose count of failures is at the largest number isn't asked.
    fn turn<R: Wait>(&mut self, rt: &R) -> Turn {
        if self.is_over() {
            return Turn::Ended;
        }
        if self.delivery.failures() == u64::MAX {
            return Turn::Quiet;
        }
        if let Some(met) = self.high.take_if(rt, self.two_bands) {
            self.delivery.pass(rt, self.high.is_shut(), met);
            return Turn::Did;
        }
        match self.low.take(rt) {
            None => Turn::Quiet,
            Some(met) => {
                self.delivery.pass(rt, self.low.is_shut(), met);
                Turn::Did
            }
        }
    }

    /// Whether an end mark is still to come and the sink can be asked.
    fn awaits_push(&self) -> bool {
        if self.is_over() {
            return false;
        }
        self.delivery.failures() != u64::MAX
    }

    /// It has no wait of its own.
    fn wait(&mut self) -> bool {
        false
    }

    fn post<R: Wait>(&mut self, rt: &R, book: &Book<N>) {
        self.delivery.post(rt, book);
    }

    ghost same_self = { λ x. forwarder_self K.same K.same_self x };

    ghost same_then = { λ x y z p q. forwarder_then K.same K.same_then x y z p q };

    ghost turn_keeps = { λ turn x y is. (forwarded_same K.same K.same_self K.told K.failed x y turn is, λ e. forwarded_ended K.same K.same_self K.told K.failed x y (subst (λ (t : Turn). Forwarded K.told K.failed K.same t x y) e is)) };

    ghost wait_keeps = { λ waited x y is. forwarder_as K.same K.same_self x y is.1 };

    ghost post_keeps = { λ x y is. (forwarder_posted K.same K.same_self x y is.0 is.1, λ ended. forwarder_still x y is.1 ended, posted_drains x.side.share y.side.share is.0) };
}
