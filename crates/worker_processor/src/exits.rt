//! What a processor and the slow path do with what they made of a packet.

ghost use Rattle.std.specs.Prelude.{◌≡◌, false, ◌+◌, ◌*◌, ◌<◌, MatchBool, length, ◌&&◌};
ghost use Rattle.packet_ledger.specs.Share.{HasRoom, IsPosted, MayRaise};
ghost use Rattle.router_rules.specs.Links.{link_count};
ghost use Rattle.worker_processor.specs.Answering.{RepliedTo};
ghost use Rattle.worker_processor.specs.Exits.{DroppedAs, SentAs, TriedLink, pipe_for, with_links, with_share};
ghost use Rattle.worker_parts.specs.Outlets.{AreUnended, Trying, are_used};
ghost use Rattle.worker_processor.specs.Working.{AskedAs, PassedOn};
ghost use Rattle.worker_parts.specs.Items.{StandsIn};

use packet_ledger::{Book, Share};
use process_packet::{Cause, Decision};
use router_rules::{Interface, LinkIndex, Shared, rules_are_lawful};
use ruled_pipe::{Full, Producer};
use std::alloc::Global;
use std::marker::Model;
use std::sync::{Arc, Wait};
use worker_parts::{
    Buffer, EgressPacket, Outlet, Packet, RunBrand, SlowPathRequest, Withheld, are_both, end_at,
    give_back, offer_at,
};

/// The ends of the links' pipes, two of each link, and of their pipes of free buffers, with the counts.
pub struct Exits<N: RunBrand> {
    pub(crate) shared: Arc<Shared, Global>,
    pub(crate) links: Vec<Outlet<EgressPacket<N>>>,
    pub(crate) free: Vec<Producer<Buffer>>,
    pub(crate) share: Share<N>,
}

impl<N: RunBrand> Model for Exits<N> {
    ghost use Rattle.std.specs.Prelude.{◌≡◌, ◌*◌, length, Some};
    ghost use Rattle.std.specs.Arc.{arc_value};
    ghost use Rattle.router_rules.specs.Links.{link_count};
    ghost use Rattle.worker_processor.specs.Answering.{RepliedTo};
    ghost use Rattle.worker_processor.specs.Exits.{Leaving};

    ghost Value = { Leaving };

    ghost view = { λ e. record { config = (arc_value e.shared).config; links = e.links.items; free = e.free.items; share = e.share } };

    ghost invariant = { λ e. (N.config ≡ Some (arc_value e.shared).config) × (length e.links.items ≡ 2 * link_count (arc_value e.shared).config) × (length e.free.items ≡ link_count (arc_value e.shared).config) };
}

impl<N: RunBrand> Drop for Exits<N> {
    fn drop(self) {
        let Exits {
            shared: _,
            links: _,
            free: _,
            share: _,
        } = self;
    }
}

// The place of the pipe for what leaves.
fn pipe_for<N: RunBrand>(shared: &Shared, egress_packet: &EgressPacket<N>) -> usize
    ensures { result ≡ pipe_for shared.now.config egress_packet.now }
{
    let link = egress_packet.link();
    let high = shared.ports.two_bands(link) && egress_packet.is_urgent();
    2 * link.place() + usize::from(high)
}

impl<N: RunBrand> Exits<N> {
    /// The ends of pipes, and the counts.
    pub fn into_parts(
        self,
    ) -> (
        Vec<Outlet<EgressPacket<N>>>,
        Vec<Producer<Buffer>>,
        Share<N>,
    )
        ensures { (result.0.items ≡ self.links) × (result.1.items ≡ self.free) × (result.2 ≡ self.share) }
    {
        let Exits {
            shared: _,
            links,
            free,
            share,
        } = self;
        (links, free, share)
    }

    /// Whether each of its counts can still be raised.
    pub fn has_room(&self) -> bool
        ensures { MatchBool result (HasRoom self.now.share.counts) (HasRoom self.now.share.counts → ⊥) }
    {
        self.share.has_room()
    }

    /// Drops a packet for a cause: its buffer goes back to the link by which it came.
    pub fn drop_for<R: Wait>(&mut self, rt: &R, link: LinkIndex, buffer: Buffer, cause: Cause)
        requires there { link < link_count self.old.config }
        requires room { MayRaise self.old.share.counts }
        ensures { DroppedAs link cause self.old self.new }
    {
        give_back(rt, &mut self.free, link, buffer);
        self.share.fate(cause);
    }

    /// Offers what leaves to its pipe; where that is full, it is dropped.
    pub fn send<R: Wait>(&mut self, rt: &R, egress_packet: EgressPacket<N>)
        requires link { egress_packet.link < link_count self.old.config }
        requires unended { AreUnended self.old.links }
        requires room { MayRaise self.old.share.counts }
        ensures { SentAs egress_packet self.old self.new }
    {
        let at = pipe_for(&self.shared, &egress_packet);
        if let Err(egress_packet) = offer_at(rt, &mut self.links, at, egress_packet) {
            let link = egress_packet.arrived();
            give_back(rt, &mut self.free, link, egress_packet.into_buffer());
            self.share.fate(Cause::LinkFull);
        }
    }

    /// Passes a packet on as the rules decide.
    pub fn pass_on<R: Wait>(
        &mut self,
        rt: &R,
        slow: &mut Outlet<SlowPathRequest<N>>,
        packet: Packet<N>,
    )
        requires unended { AreUnended self.old.links × (slow.old.ended ≡ false) }
        requires room { MayRaise self.old.share.counts }
        ensures some { 0 < length self.old.links }
        ensures passed { PassedOn packet self.old self.new slow.old slow.new }
    {
        rules_are_lawful();
        let mut packet = packet;
        let link = packet.link();
        match packet.decide(&self.shared.config) {
            Decision::Send { link, to } => {
                let link = self.shared.ports.index(Interface::of(link));
                self.send(rt, packet.into_egress_packet(link, to));
            }
            Decision::Answer(problem) => self.ask(rt, slow, packet.into_request(problem)),
            Decision::Drop(why) => self.drop_for(rt, link, packet.into_buffer(), why),
        }
    }

    // Offers a request to the slow path; where its pipe is full, the packet is dropped.
    fn ask<R: Wait>(
        &mut self,
        rt: &R,
        slow: &mut Outlet<SlowPathRequest<N>>,
        request: SlowPathRequest<N>,
    )
        requires link { request.arrival.link < link_count self.old.config }
        requires unended { slow.old.ended ≡ false }
        requires room { MayRaise self.old.share.counts }
        ensures { AskedAs request self.old self.new slow.old slow.new }
    {
        if let Err(Full(request)) = slow.offer(rt, request) {
            let link = request.link();
            self.drop_for(rt, link, request.into_buffer(), Cause::AnswerFull);
        }
    }

    /// Sends the answer to a request, or drops its packet where there is none.
    pub fn reply<R: Wait>(&mut self, rt: &R, request: SlowPathRequest<N>)
        requires unended { AreUnended self.old.links }
        requires room { MayRaise self.old.share.counts }
        ensures some { 0 < length self.old.links }
        ensures replied { RepliedTo request self.old self.new }
    {
        let link = request.link();
        match request.answer(&self.shared) {
            Ok(answer) => self.send(rt, answer),
            Err(Withheld { cause, buffer }) => self.drop_for(rt, link, buffer, cause),
        }
    }

    /// Posts the counts.
    pub fn post<R: Wait>(&mut self, rt: &R, book: &Book<N>)
        ensures share { IsPosted self.old.share self.new.share }
        ensures same { self.new ≡ with_share self.new.share self.old }
    {
        book.post(rt, &mut self.share);
    }

    /// Tries the end marks that are owed, of the high band's pipe of each link first, and says whether
    /// all are there.
    pub fn end<R: Wait>(&mut self, rt: &R) -> bool
        ensures tried { Trying (are_used self.old.config) self.old.links self.new.links result }
        ensures same { self.new ≡ with_links self.new.links self.old }
    {
        end_links(rt, &self.shared, &mut self.links)
    }
}

// Tries the end marks that are owed of a link's pipes, and says whether they are there.
fn end_link<T: Drop, R: Wait>(
    rt: &R,
    ends: &mut Vec<Outlet<T>>,
    link: usize,
    two_bands: bool,
) -> bool
    requires { 2 * link + 1 < length ends.old.items }
    ensures { TriedLink link two_bands ends.old.items ends.new.items result }
{
    if !two_bands {
        return end_at(rt, ends, 2 * link);
    }
    let high = end_at(rt, ends, 2 * link + 1);
    let low = end_at(rt, ends, 2 * link);
    are_both(high, low)
}

// Tries the end marks that are owed of all links' pipes, and says whether they are there.
fn end_links<T: Drop, R: Wait>(rt: &R, shared: &Shared, ends: &mut Vec<Outlet<T>>) -> bool
    requires { length ends.old.items ≡ 2 * link_count shared.now.config }
    ensures { Trying (are_used shared.now.config) ends.old.items ends.new.items result }
{
    let mut all = true;
    for link in 0..shared.ports.count() {
        let there = end_link(
            rt,
            ends,
            link,
            shared.ports.two_bands(LinkIndex::of(link as u16)),
        );
        all = are_both(all, there);
    }
    all
}
