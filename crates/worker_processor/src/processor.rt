//! A processor.

ghost use Rattle.std.specs.Prelude.{◌≡◌, ◌&&◌, ◌*◌, ◌∷◌, true, Some, [], is_some, length};
ghost use Rattle.std.specs.Arc.{arc_value};
ghost use Rattle.packet_ledger.specs.Share.{HasRoom, IsNew};
ghost use Rattle.worker_order.specs.Keeping.{IsWorking};
ghost use Rattle.worker_parts.specs.Turn.{ending};
ghost use Rattle.worker_processor.specs.Working.{EndsWorking, IsDone, WorksFor, first_leaving, first_working};
ghost use Rattle.router_rules.specs.Links.{link_count};
ghost use Rattle.worker_parts.specs.Outlets.{AreFresh, senders};

use crate::exits::Exits;
use packet_ledger::{Book, Share};
use router_rules::{Shared, Worker};
use ruled_pipe::{Load, Producer};
use std::alloc::Global;
use std::marker::Model;
use std::sync::{Arc, Wait};
use worker_parts::{
    Buffer, EgressPacket, Gate, Inlet, Outlet, Packet, RunBrand, SlowPathRequest, Stage, Turn,
    Turns,
};

/// Takes packets from its pipe, and passes each on as the rules decide, once the gate admits it.
pub struct Processor<N: RunBrand, G: Gate> {
    gate: Arc<G, Global>,
    index: u8,
    from: Inlet<Packet<N>>,
    hand: Option<Packet<N>>,
    slow: Outlet<SlowPathRequest<N>>,
    exits: Exits<N>,
}

impl<N: RunBrand, G: Gate> Model for Processor<N, G> {
    ghost use Rattle.std.specs.Arc.{arc_value};
    ghost use Rattle.worker_processor.specs.Working.{KeepsWorking, Working};

    ghost Value = { Working G };

    ghost view = { λ p. record { gate = arc_value p.gate; index = p.index; taker = p.from; hand = p.hand; slow = p.slow; side = p.exits } };

    ghost invariant = { λ p. KeepsWorking N.config p.from p.hand p.slow p.exits };
}

impl<N: RunBrand, G: Gate + Drop> Drop for Processor<N, G> {
    fn drop(self) {
        let Processor {
            gate: _,
            index: _,
            from: _,
            hand: _,
            slow: _,
            exits: _,
        } = self;
    }
}

// The turn that tried both kinds of end marks.
fn ending(a: bool, b: bool) -> Turn
    ensures { result ≡ ending (a && b) }
{
    if a && b { Turn::Ended } else { Turn::Quiet }
}

/// A processor, taken apart.
#[derive(Drop)]
pub struct PartedProcessor<N: RunBrand, G: Drop> {
    pub from: Inlet<Packet<N>>,
    pub links: Vec<Outlet<EgressPacket<N>>>,
    pub slow: Outlet<SlowPathRequest<N>>,
    pub free: Vec<Producer<Buffer>>,
    pub share: Share<N>,
    pub gate: Arc<G, Global>,
}

impl<N: RunBrand, G: Gate> Processor<N, G> {
    /// The processor of a number, which takes from its pipe, one producer a link, and offers to two pipes
    /// a link and to the slow path's; buffers go back by one pipe a link.
    pub fn new(
        shared: Arc<Shared, Global>,
        index: u8,
        gate: Arc<G, Global>,
        from: Inlet<Packet<N>>,
        links: Vec<Outlet<EgressPacket<N>>>,
        slow: Outlet<SlowPathRequest<N>>,
        free: Vec<Producer<Buffer>>,
        share: Share<N>,
    ) -> Processor<N, G>
        requires config { N.config ≡ Some (arc_value shared).config }
        requires from { from.taken ≡ [] }
        requires links { (length links.items ≡ 2 * link_count (arc_value shared).config) × AreFresh links.items }
        requires slow { AreFresh (slow ∷ []) }
        requires free { length free.items ≡ link_count (arc_value shared).config }
        requires share { IsNew share }
        ensures { result ≡ first_working (arc_value gate) index from slow (first_leaving (arc_value shared).config links.items free.items share) }
    {
        let exits = Exits {
            shared,
            links,
            free,
            share,
        };
        Processor {
            gate,
            index,
            from,
            hand: None,
            slow,
            exits,
        }
    }

    // Passes on the packet in hand, where the gate admits it.
    fn work<R: Wait>(&mut self, rt: &R) -> Turn
        requires some { is_some self.old.hand ≡ true }
        requires room { HasRoom self.old.side.share.counts }
        ensures { WorksFor G.answers result self.old self.new }
    {
        let Some(packet) = self.hand.take() else {
            unreachable!()
        };
        let me = Worker::Processor(self.index);
        let interface = packet.interface().id();
        if !self.gate.admits(me, interface, packet.number()) {
            self.hand = Some(packet);
            return Turn::Quiet;
        }
        self.exits.pass_on(rt, &mut self.slow, packet);
        Turn::Did
    }

    // Tries the end marks that are owed.
    fn end<R: Wait>(&mut self, rt: &R) -> Turn
        requires { IsDone self.old }
        ensures { EndsWorking result self.old self.new }
    {
        let slow = self.slow.end(rt);
        let links = self.exits.end(rt);
        ending(slow, links)
    }
}

impl<N: RunBrand, G: Gate + Drop> Processor<N, G> {
    /// Its ends of pipes and its counts, which tell what it did, and its gate.
    pub fn into_parts(self) -> PartedProcessor<N, G>
        ensures parts { (result.from ≡ self.taker) × (result.links.items ≡ self.side.links) × (result.slow ≡ self.slow) × (result.free.items ≡ self.side.free) × (result.share ≡ self.side.share) × (arc_value result.gate ≡ self.gate) }
        ensures law { IsWorking self.side.config self.taker self.hand (senders self.side.links) self.slow.sender self.side.share }
    {
        let Processor {
            gate,
            index: _,
            from,
            hand: _,
            slow,
            exits,
        } = self;
        let (links, free, share) = exits.into_parts();
        PartedProcessor {
            from,
            links,
            slow,
            free,
            share,
            gate,
        }
    }
}

impl<N: RunBrand, G: Gate> Stage for Processor<N, G> {
    ghost use Rattle.worker_processor.specs.SameProcessor.{IsSameProcessor, ProcessorEnded};

    ghost same = { λ a b. IsSameProcessor a b };

    ghost has_ended = { λ w. ProcessorEnded w };
}

impl<N: RunBrand, G: Gate> Turns<Book<N>> for Processor<N, G> {
    ghost use Rattle.std.specs.Prelude.{◌≡◌, false, MatchBool};
    ghost use Rattle.packet_ledger.specs.Share.{HasRoom, IsDrained, IsPosted};
    ghost use Rattle.packet_ledger.proofs.Posting.{posted_drains};
    ghost use Rattle.worker_parts.specs.declared.turn.Turn.{Turn};
    ghost use Rattle.std.proofs.Common.{subst};
    ghost use Rattle.worker_processor.specs.Working.{AwaitsPush, Worked, posted};
    ghost use Rattle.worker_processor.specs.SameProcessor.{processor_self, processor_then};
    ghost use Rattle.worker_processor.specs.ExitLaws.{processor_as, processor_posted, processor_still, worked_ended, worked_same};

    ghost may_turn = { λ w. HasRoom w.side.share.counts };

    ghost has_turned = { λ turn a b. Worked G.answers turn a b };

    ghost awaits = { λ w said. MatchBool said (AwaitsPush w) (AwaitsPush w → ⊥) };

    ghost has_waited = { λ waited a b. (waited ≡ false) × (b ≡ a) };

    ghost has_posted = { λ a b. IsPosted a.side.share b.side.share × (b ≡ posted b.side.share a) };

    ghost is_drained = { λ w. IsDrained w.side.share };

    fn has_room(&self) -> bool {
        self.exits.has_room()
    }

    /// Takes a packet, where it has none in hand, and passes it on where the gate admits it. After the
    /// last end mark of its pipe it tries the end marks that it owes, the slow path's first.
    fn turn<R: Wait>(&mut self, rt: &R) -> Turn {
        if self.hand.is_some() {
            return self.work(rt);
        }
        if self.from.is_done() {
            return self.end(rt);
        }
        match self.from.take(rt) {
            None => Turn::Quiet,
            Some(Load::Marked(_)) => Turn::Did,
            Some(Load::Payload(packet)) => {
                self.hand = Some(packet);
                self.work(rt)
            }
        }
    }

    /// Whether nothing is in its hand and an end mark is still to come.
    fn awaits_push(&self) -> bool {
        self.hand.is_none() && !self.from.is_done()
    }

    /// It has no wait of its own.
    fn wait(&mut self) -> bool {
        false
    }

    fn post<R: Wait>(&mut self, rt: &R, book: &Book<N>) {
        self.exits.post(rt, book);
    }

    ghost same_self = { λ x. processor_self x };

    ghost same_then = { λ x y z p q. processor_then x y z p q };

    ghost turn_keeps = { λ turn x y is. (worked_same G.answers x y turn is, λ e. worked_ended G.answers x y (subst (λ (t : Turn). Worked G.answers t x y) e is)) };

    ghost wait_keeps = { λ waited x y is. processor_as x y is.1 };

    ghost post_keeps = { λ x y is. (processor_posted x y is.0 is.1, λ ended. processor_still x y is.1 ended, posted_drains x.side.share y.side.share is.0) };
}
