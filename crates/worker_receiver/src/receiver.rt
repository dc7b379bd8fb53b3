//! A receiver.

ghost use Rattle.std.specs.Prelude.{◌≡◌, ◌<◌, true, Some, [], length};
ghost use Rattle.std.specs.Arc.{arc_value};
ghost use Rattle.packet_ledger.specs.Share.{IsNew};
ghost use Rattle.worker_order.specs.Heard.{ToldNothing};
ghost use Rattle.worker_order.specs.Keeping.{IsReceiving};
ghost use Rattle.router_rules.specs.Links.{link_count};
ghost use Rattle.worker_receiver.specs.Receiving.{EndsQuietly, first_receiving};
ghost use Rattle.worker_parts.specs.Outlets.{AreFresh, senders};

use crate::intake::Intake;
use crate::pool::Pool;
use packet_ledger::{Book, Share};
use router_rules::{LinkIndex, Shared, links_stand_in_order};
use ruled_pipe::Consumer;
use std::alloc::Global;
use std::marker::Model;
use std::sync::atomic::{AtomicU64, Ordering};
use std::sync::{Arc, Wait};
use worker_parts::{Buffer, NextLen, Outlet, Packet, RunBrand, Signal, Source, Stage, Turn, Turns};

// It ends after this number, so that no queue ever accepts 2^62 pushes.
const LAST_NUMBER: u64 = 1 << 56;

/// Takes datagrams from the source of a link, numbers them from 1 on, and passes them on to the
/// processors of their flows.
pub struct Receiver<N: RunBrand, S: Source> {
    stop: Arc<AtomicU64, Global>,
    number: u64,
    source: S,
    intake: Intake<N>,
    ended: bool,
}

impl<N: RunBrand, S: Source> Model for Receiver<N, S> {
    ghost use Rattle.worker_receiver.specs.Receiving.{KeepsReceiving, Receiving};

    ghost Value = { Receiving S };

    ghost view = { λ r. record { number = r.number; source = r.source; ended = r.ended; side = r.intake.side } };

    ghost invariant = { λ r. KeepsReceiving (S.told r.source) r.number r.ended r.intake.side };
}

impl<N: RunBrand, S: Source + Drop> Drop for Receiver<N, S> {
    fn drop(self) {
        let Receiver {
            stop: _,
            number: _,
            source: _,
            intake: _,
            ended: _,
        } = self;
    }
}

/// A receiver, taken apart.
#[derive(Drop)]
pub struct PartedReceiver<N: RunBrand, S> {
    pub source: S,
    pub processors: Vec<Outlet<Packet<N>>>,
    pub free: Consumer<Buffer>,
    pub share: Share<N>,
}

impl<N: RunBrand, S: Source> Receiver<N, S> {
    /// The receiver of a link, over a source that gave nothing yet. It reads into a first
    /// buffer, takes others from the pipe of the link's free ones, and offers to one pipe a processor.
    pub fn new(
        shared: Arc<Shared, Global>,
        stop: Arc<AtomicU64, Global>,
        link: LinkIndex,
        source: S,
        first: Buffer,
        free: Consumer<Buffer>,
        processors: Vec<Outlet<Packet<N>>>,
        share: Share<N>,
    ) -> Receiver<N, S>
        requires config { N.config ≡ Some (arc_value shared).config }
        requires link { link < link_count (arc_value shared).config }
        requires processors { (length processors.items ≡ (arc_value shared).config.processors) × AreFresh processors.items }
        requires free { free.looks ≡ [] }
        requires share { IsNew share }
        requires untold { ToldNothing (S.told source) }
        ensures { result ≡ first_receiving (arc_value shared).config link source free processors.items share }
    {
        links_stand_in_order();
        let interface = shared.ports.interface(link);
        let pool = Pool::new(first, free);
        let intake = Intake {
            shared,
            link,
            interface,
            pool,
            processors,
            share,
        };
        Receiver {
            stop,
            number: 0,
            source,
            intake,
            ended: false,
        }
    }

    /// Its source, its ends of pipes and its counts, which tell what it did.
    pub fn into_parts(self) -> PartedReceiver<N, S>
        ensures parts { (result.source ≡ self.source) × (result.processors.items ≡ self.side.processors) × (result.free ≡ self.side.stock.free) × (result.share ≡ self.side.share) }
        ensures law { IsReceiving self.side.config self.side.link self.side.interface self.number (S.told self.source) self.side.stock.free.looks (senders self.side.processors) self.side.share }
        ensures quiet { self.ended ≡ true → EndsQuietly self.number (S.told self.source) }
    {
        let Receiver {
            stop: _,
            number: _,
            source,
            intake,
            ended: _,
        } = self;
        let (processors, free, share) = intake.into_parts();
        PartedReceiver {
            source,
            processors,
            free,
            share,
        }
    }
}

impl<N: RunBrand, S: Source> Stage for Receiver<N, S> {
    ghost use Rattle.worker_receiver.specs.SameReceiver.{IsSameReceiver, ReceiverEnded};

    ghost same = { λ a b. IsSameReceiver S.same a b };

    ghost has_ended = { λ r. ReceiverEnded r };
}

impl<N: RunBrand, S: Source> Turns<Book<N>> for Receiver<N, S> {
    ghost use Rattle.std.specs.Prelude.{◌≡◌, false, MatchBool};
    ghost use Rattle.packet_ledger.specs.Share.{HasRoom, IsDrained, IsPosted};
    ghost use Rattle.packet_ledger.proofs.Posting.{posted_drains};
    ghost use Rattle.worker_parts.specs.declared.turn.Turn.{Turn};
    ghost use Rattle.std.proofs.Common.{subst};
    ghost use Rattle.worker_receiver.specs.Receiving.{Received, Waited, posted};
    ghost use Rattle.worker_receiver.specs.SameReceiver.{receiver_self, receiver_then};
    ghost use Rattle.worker_receiver.specs.ReceiverLaws.{received_ended, received_same, receiver_posted, receiver_still, waited_same};

    ghost may_turn = { λ r. HasRoom r.side.share.counts };

    ghost has_turned = { λ turn a b. Received S.told S.failed S.same turn a b };

    ghost awaits = { λ r said. said ≡ false };

    ghost has_waited = { λ waited a b. Waited S.told S.failed S.same a b × MatchBool a.ended (waited ≡ false) (S.waits a.source waited) };

    ghost has_posted = { λ a b. IsPosted a.side.share b.side.share × (b ≡ posted b.side.share a) };

    ghost is_drained = { λ r. IsDrained r.side.share };

    fn has_room(&self) -> bool {
        self.intake.has_room()
    }

    /// Asks the source once, and passes on what it gives. A source whose count of failures is at the
    /// largest number isn't asked. After its end it tries the end marks that it owes.
    fn turn<R: Wait>(&mut self, rt: &R) -> Turn {
        if self.ended {
            return if self.intake.end(rt) {
                Turn::Ended
            } else {
                Turn::Quiet
            };
        }
        if self.source.failures() == u64::MAX {
            return Turn::Quiet;
        }
        let stopping = Signal::of(self.stop.load(Ordering::SeqCst)) == Signal::Stop;
        match self.intake.read(&mut self.source) {
            NextLen::Datagram { len, from, now } => {
                self.number += 1;
                self.intake.pass_in(rt, self.number, from, now, len);
                self.ended = self.number == LAST_NUMBER;
                Turn::Did
            }
            NextLen::Quiet => {
                self.ended = stopping;
                if stopping { Turn::Did } else { Turn::Quiet }
            }
            NextLen::Failed => {
                self.ended = stopping;
                if stopping { Turn::Did } else { Turn::Quiet }
            }
            NextLen::End => {
                self.ended = true;
                Turn::Did
            }
        }
    }

    /// It takes from its source, so no push ends its quiet.
    fn awaits_push(&self) -> bool {
        false
    }

    /// Waits as its source does, before its end, and says what that says.
    fn wait(&mut self) -> bool {
        if self.ended {
            return false;
        }
        self.source.wait()
    }

    fn post<R: Wait>(&mut self, rt: &R, book: &Book<N>) {
        self.intake.post(rt, book);
    }

    ghost same_self = { λ x. receiver_self S.same S.same_self x };

    ghost same_then = { λ x y z p q. receiver_then S.same S.same_then x y z p q };

    ghost turn_keeps = { λ turn x y is. (received_same S.same S.same_self S.told S.failed x y turn is, λ e. received_ended S.told S.failed S.same x y (subst (λ (t : Turn). Received S.told S.failed S.same t x y) e is)) };

    ghost wait_keeps = { λ waited x y is. waited_same S.same S.same_self S.told S.failed x y is.0 };

    ghost post_keeps = { λ x y is. (receiver_posted S.same S.same_self x y is.0 is.1, λ ended. receiver_still x y is.1 ended, posted_drains x.side.share y.side.share is.0) };
}
