//! The slow path.

ghost use Rattle.std.specs.Prelude.{◌≡◌, ◌*◌, ◌<◌, Some, [], length};
ghost use Rattle.std.specs.Arc.{arc_value};
ghost use Rattle.packet_ledger.specs.Share.{IsNew};
ghost use Rattle.worker_order.specs.Keeping.{IsAnswering};
ghost use Rattle.router_rules.specs.Links.{link_count};
ghost use Rattle.worker_processor.specs.Answering.{EndsAnswering, IsDone, first_answering};
ghost use Rattle.worker_processor.specs.Working.{first_leaving};
ghost use Rattle.worker_parts.specs.Outlets.{AreFresh, senders};

use crate::exits::Exits;
use packet_ledger::{Book, Share};
use router_rules::Shared;
use ruled_pipe::{Load, Producer};
use std::alloc::Global;
use std::marker::Model;
use std::sync::{Arc, Wait};
use worker_parts::{
    Buffer, EgressPacket, Inlet, Outlet, RunBrand, SlowPathRequest, Stage, Turn, Turns,
};

/// Takes requests from its pipe, and sends the answer to each back by the link by which its packet
/// came.
pub struct SlowPath<N: RunBrand> {
    from: Inlet<SlowPathRequest<N>>,
    exits: Exits<N>,
}

impl<N: RunBrand> Model for SlowPath<N> {
    ghost use Rattle.worker_processor.specs.Answering.{Answering, KeepsAnswering};

    ghost Value = { Answering };

    ghost view = { λ p. record { taker = p.from; side = p.exits } };

    ghost invariant = { λ p. KeepsAnswering N.config p.from p.exits };
}

impl<N: RunBrand> Drop for SlowPath<N> {
    fn drop(self) {
        let SlowPath { from: _, exits: _ } = self;
    }
}

/// The slow path, taken apart.
#[derive(Drop)]
pub struct PartedSlowPath<N: RunBrand> {
    pub from: Inlet<SlowPathRequest<N>>,
    pub links: Vec<Outlet<EgressPacket<N>>>,
    pub free: Vec<Producer<Buffer>>,
    pub share: Share<N>,
}

impl<N: RunBrand> SlowPath<N> {
    /// The slow path, which takes from its pipe, one producer a processor, and offers to two pipes a
    /// link; buffers go back by one pipe a link.
    pub fn new(
        shared: Arc<Shared, Global>,
        from: Inlet<SlowPathRequest<N>>,
        links: Vec<Outlet<EgressPacket<N>>>,
        free: Vec<Producer<Buffer>>,
        share: Share<N>,
    ) -> SlowPath<N>
        requires config { N.config ≡ Some (arc_value shared).config }
        requires from { from.taken ≡ [] }
        requires links { (length links.items ≡ 2 * link_count (arc_value shared).config) × AreFresh links.items }
        requires free { length free.items ≡ link_count (arc_value shared).config }
        requires share { IsNew share }
        ensures { result ≡ first_answering from (first_leaving (arc_value shared).config links.items free.items share) }
    {
        let exits = Exits {
            shared,
            links,
            free,
            share,
        };
        SlowPath { from, exits }
    }

    /// Its ends of pipes and its counts, which tell what it did.
    pub fn into_parts(self) -> PartedSlowPath<N>
        ensures parts { (result.from ≡ self.taker) × (result.links.items ≡ self.side.links) × (result.free.items ≡ self.side.free) × (result.share ≡ self.side.share) }
        ensures law { IsAnswering self.side.config self.taker (senders self.side.links) self.side.share }
    {
        let SlowPath { from, exits } = self;
        let (links, free, share) = exits.into_parts();
        PartedSlowPath {
            from,
            links,
            free,
            share,
        }
    }

    // Tries the end marks that are owed.
    fn end<R: Wait>(&mut self, rt: &R) -> Turn
        requires { IsDone self.old }
        ensures { EndsAnswering result self.old self.new }
    {
        if self.exits.end(rt) {
            Turn::Ended
        } else {
            Turn::Quiet
        }
    }
}

impl<N: RunBrand> Stage for SlowPath<N> {
    ghost use Rattle.worker_processor.specs.SameSlowPath.{IsSameSlowPath, SlowPathEnded};

    ghost same = { λ a b. IsSameSlowPath a b };

    ghost has_ended = { λ a. SlowPathEnded a };
}

impl<N: RunBrand> Turns<Book<N>> for SlowPath<N> {
    ghost use Rattle.std.specs.Prelude.{◌≡◌, ◌<◌, false, MatchBool};
    ghost use Rattle.packet_ledger.specs.Share.{HasRoom, IsDrained, IsPosted};
    ghost use Rattle.packet_ledger.proofs.Posting.{posted_drains};
    ghost use Rattle.worker_parts.specs.declared.turn.Turn.{Turn};
    ghost use Rattle.std.proofs.Common.{subst};
    ghost use Rattle.ruled_pipe.specs.Gathered.{ends_in};
    ghost use Rattle.worker_processor.specs.Answering.{Answered, IsDone, posted};
    ghost use Rattle.worker_processor.specs.SameSlowPath.{slow_self, slow_then};
    ghost use Rattle.worker_processor.specs.ExitLaws.{answered_ended, answered_same, slow_as, slow_posted, slow_still};

    ghost may_turn = { λ a. HasRoom a.side.share.counts };

    ghost has_turned = { λ turn a b. Answered turn a b };

    ghost awaits = { λ a said. MatchBool said (ends_in a.taker.taken < a.taker.producers) (IsDone a) };

    ghost has_waited = { λ waited a b. (waited ≡ false) × (b ≡ a) };

    ghost has_posted = { λ a b. IsPosted a.side.share b.side.share × (b ≡ posted b.side.share a) };

    ghost is_drained = { λ a. IsDrained a.side.share };

    fn has_room(&self) -> bool {
        self.exits.has_room()
    }

    /// Takes a request and sends its answer. After the last end mark of its pipe it tries the end marks
    /// that it owes.
    fn turn<R: Wait>(&mut self, rt: &R) -> Turn {
        if self.from.is_done() {
            return self.end(rt);
        }
        match self.from.take(rt) {
            None => Turn::Quiet,
            Some(Load::Marked(_)) => Turn::Did,
            Some(Load::Payload(request)) => {
                self.exits.reply(rt, request);
                Turn::Did
            }
        }
    }

    /// Whether an end mark is still to come.
    fn awaits_push(&self) -> bool {
        !self.from.is_done()
    }

    /// It has no wait of its own.
    fn wait(&mut self) -> bool {
        false
    }

    fn post<R: Wait>(&mut self, rt: &R, book: &Book<N>) {
        self.exits.post(rt, book);
    }

    ghost same_self = { λ x. slow_self x };

    ghost same_then = { λ x y z p q. slow_then x y z p q };

    ghost turn_keeps = { λ turn x y is. (answered_same turn x y is, λ e. answered_ended x y (subst (λ (t : Turn). Answered t x y) e is)) };

    ghost wait_keeps = { λ waited x y is. slow_as x y is.1 };

    ghost post_keeps = { λ x y is. (slow_posted x y is.0 is.1, λ ended. slow_still x y is.1 ended, posted_drains x.side.share y.side.share is.0) };
}
