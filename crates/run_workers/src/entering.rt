//! What receivers are made of.

ghost use Rattle.std.specs.Prelude.{◌≡◌, ◌<◌, IfOk, [], Some, length};
ghost use Rattle.std.specs.Arc.{arc_value};
ghost use Rattle.packet_ledger.specs.Share.{IsNew};
ghost use Rattle.router_rules.specs.Links.{link_count};
ghost use Rattle.worker_parts.specs.Outlets.{AreFresh};
ghost use Rattle.run_ends.specs.Rows.{new_takers};
ghost use Rattle.run_pipes.specs.Piping.{Piping};
ghost use Rattle.run_pipes.specs.Pipes.{HaveReceivers};
ghost use Rattle.run_workers.specs.Kits.{IsEnteringAt};
ghost use Rattle.run_workers.specs.Shares.{AreNewShares, HaveGone};
ghost use Rattle.run_pipes.specs.Rest.{IsRest};

use crate::common::Common;
use crate::over::Over;
use packet_ledger::Share;
use router_rules::{LinkIndex, Shared, link_count};
use ruled_pipe::Consumer;
use run_ends::Line;
use run_pipes::{Pipes, outlets};
use std::alloc::{AllocError, Global};
use std::marker::Model;
use std::sync::Arc;
use std::sync::atomic::AtomicU64;
use worker_parts::{Buffer, Outlet, Packet, RunBrand, Source, both};
use worker_receiver::Receiver;

/// All that a receiver is made of but its source.
pub struct Entering<N: RunBrand> {
    shared: Arc<Shared, Global>,
    stop: Arc<AtomicU64, Global>,
    link: LinkIndex,
    first: Buffer,
    free: Consumer<Buffer>,
    processors: Vec<Outlet<Packet<N>>>,
    share: Share<N>,
}

impl<N: RunBrand> Model for Entering<N> {
    ghost use Rattle.std.specs.Prelude.{◌≡◌, ◌<◌, [], Some, length};
    ghost use Rattle.std.specs.Arc.{arc_value};
    ghost use Rattle.packet_ledger.specs.Share.{IsNew};
    ghost use Rattle.router_rules.specs.Links.{link_count};
    ghost use Rattle.worker_parts.specs.Outlets.{AreFresh};
    ghost use Rattle.run_workers.specs.Kits.{Entry};

    ghost Value = { Entry };

    ghost view = { λ e. record { config = (arc_value e.shared).config; link = e.link; free = e.free; processors = e.processors.items; share = e.share } };

    ghost invariant = { λ e. (N.config ≡ Some (arc_value e.shared).config) × (e.link < link_count (arc_value e.shared).config) × (length e.processors.items ≡ (arc_value e.shared).config.processors) × AreFresh e.processors.items × (e.free.looks ≡ []) × IsNew e.share };
}

impl<N: RunBrand> Drop for Entering<N> {
    fn drop(self) {
        let Entering {
            shared: _,
            stop: _,
            link: _,
            first: _,
            free: _,
            processors: _,
            share: _,
        } = self;
    }
}

impl<N: RunBrand, S: Source> Over<S, Receiver<N, S>> for Entering<N> {
    ghost use Rattle.worker_order.specs.Heard.{ToldNothing};
    ghost use Rattle.run_workers.specs.Kits.{receiving_over};

    ghost fits = { λ s. ToldNothing (S.told s) };

    ghost worker = { λ e s. receiving_over e s };

    fn over(self, source: S) -> Receiver<N, S> {
        let Entering {
            shared,
            stop,
            link,
            first,
            free,
            processors,
            share,
        } = self;
        Receiver::new(shared, stop, link, source, first, free, processors, share)
    }
}

fn entering_at<N: RunBrand>(
    alloc: Global,
    common: &Common,
    link: LinkIndex,
    processors: Vec<Outlet<Packet<N>>>,
    free: Consumer<Buffer>,
    share: Share<N>,
) -> Result<Entering<N>, AllocError>
    requires config { N.config ≡ Some (arc_value common.now.shared).config }
    requires link { link < link_count (arc_value common.now.shared).config }
    requires processors { AreFresh processors.items × (length processors.items ≡ (arc_value common.now.shared).config.processors) }
    requires free { free.looks ≡ [] }
    requires share { IsNew share }
    ensures config { IfOk result (λ e. (e.config ≡ (arc_value common.now.shared).config) × (e.link ≡ link)) }
    ensures ends { IfOk result (λ e. (e.free ≡ free) × (e.processors ≡ processors.items)) }
    ensures share { IfOk result (λ e. e.share ≡ share) }
{
    let stop = Arc::try_clone(&common.stop)?;
    let shared = Arc::try_clone(&common.shared);
    let (shared, first) = both(shared, Buffer::new(alloc))?;
    Ok(Entering {
        shared,
        stop,
        link,
        first,
        free,
        processors,
        share,
    })
}

/// All that the receivers are made of but their sources.
pub fn all_entering<N: RunBrand>(
    alloc: Global,
    common: &Common,
    pipes: &mut Pipes<N>,
    free: Vec<Consumer<Buffer>>,
    shares: &mut Line<Share<N>>,
) -> Result<Vec<Entering<N>>, AllocError>
    requires config { N.config ≡ Some (arc_value common.now.shared).config }
    requires pipes { (p : Piping) × HaveReceivers (arc_value common.now.shared).config 0 p pipes.old × (free.items ≡ new_takers p.free) }
    requires shares { AreNewShares 0 (link_count (arc_value common.now.shared).config) shares.old }
    ensures shares { IfOk result (λ _. HaveGone 0 (link_count (arc_value common.now.shared).config) shares.old shares.new) }
    ensures made { let c = (arc_value common.now.shared).config in IfOk result (λ v. (p : Piping) → HaveReceivers c 0 p pipes.old → free.items ≡ new_takers p.free → HaveReceivers c (link_count c) p pipes.new × IsRest (IsEnteringAt c p) 0 (link_count c) v.items) }
{
    let links = link_count(&common.shared.config);
    let mut made = Vec::with_capacity(alloc, links)?;
    let mut free = Line::of(free);
    for link in 0..links {
        let events = common.events.processors.as_slice();
        let processors = outlets(alloc, &mut pipes.packets, events, 1)?;
        let taker = free.next();
        let share = shares.next();
        let link = LinkIndex::of(link as u16);
        let entering = entering_at(alloc, common, link, processors, taker, share)?;
        made.push_reserved(entering);
    }
    Ok(made)
}
