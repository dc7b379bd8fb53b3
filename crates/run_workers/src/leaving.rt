//! What forwarders are made of.

ghost use Rattle.std.specs.Prelude.{◌≡◌, ◌+◌, IfOk, [], Some, length, false};
ghost use Rattle.std.specs.Arc.{arc_value};
ghost use Rattle.packet_ledger.specs.Share.{IsNew};
ghost use Rattle.router_rules.specs.Links.{link_count};
ghost use Rattle.worker_forwarder.specs.Forwarding.{band};
ghost use Rattle.run_ends.specs.Rows.{new_takers};
ghost use Rattle.run_pipes.specs.Piping.{Piping};
ghost use Rattle.run_pipes.specs.Pipes.{HaveForwarders};
ghost use Rattle.run_workers.specs.Kits.{IsLeavingAt};
ghost use Rattle.run_workers.specs.Shares.{AreNewShares};
ghost use Rattle.run_pipes.specs.Rest.{IsRest};

use crate::common::Common;
use crate::over::Over;
use packet_ledger::Share;
use router_rules::{LinkIndex, Shared, link_count};
use ruled_pipe::{Consumer, Producer};
use run_ends::{Line, next_producers};
use run_pipes::Pipes;
use std::alloc::{AllocError, Global};
use std::marker::Model;
use std::sync::Arc;
use worker_forwarder::{Band, Forwarder};
use worker_parts::{Buffer, EgressPacket, RunBrand, Sink};

/// All that a forwarder is made of but its sink.
pub struct Leaving<N: RunBrand> {
    shared: Arc<Shared, Global>,
    link: LinkIndex,
    low: Band<N>,
    high: Band<N>,
    free: Vec<Producer<Buffer>>,
    share: Share<N>,
}

impl<N: RunBrand> Model for Leaving<N> {
    ghost use Rattle.std.specs.Prelude.{◌≡◌, [], Some, false, length};
    ghost use Rattle.std.specs.Arc.{arc_value};
    ghost use Rattle.packet_ledger.specs.Share.{IsNew};
    ghost use Rattle.router_rules.specs.Links.{link_count};
    ghost use Rattle.run_workers.specs.Kits.{Exit};

    ghost Value = { Exit };

    ghost view = { λ e. record { config = (arc_value e.shared).config; link = e.link; low = e.low; high = e.high; free = e.free.items; share = e.share } };

    ghost invariant = { λ e. (N.config ≡ Some (arc_value e.shared).config) × (e.low.taker.taken ≡ []) × (e.low.shut ≡ false) × (e.high.taker.taken ≡ []) × (e.high.shut ≡ false) × (length e.free.items ≡ link_count (arc_value e.shared).config) × IsNew e.share };
}

impl<N: RunBrand> Drop for Leaving<N> {
    fn drop(self) {
        let Leaving {
            shared: _,
            link: _,
            low: _,
            high: _,
            free: _,
            share: _,
        } = self;
    }
}

impl<N: RunBrand, K: Sink> Over<K, Forwarder<N, K>> for Leaving<N> {
    ghost use Rattle.worker_order.specs.Heard.{ToldNothing};
    ghost use Rattle.run_workers.specs.Kits.{forwarding_over};

    ghost fits = { λ k. ToldNothing (K.told k) };

    ghost worker = { λ e k. forwarding_over K.failed e k };

    fn over(self, sink: K) -> Forwarder<N, K> {
        let Leaving {
            shared,
            link,
            low,
            high,
            free,
            share,
        } = self;
        Forwarder::new(shared, link, low, high, sink, free, share)
    }
}

fn leaving_at<N: RunBrand>(
    shared: Arc<Shared, Global>,
    link: LinkIndex,
    producers: usize,
    low: Consumer<EgressPacket<N>>,
    high: Consumer<EgressPacket<N>>,
    free: Vec<Producer<Buffer>>,
    share: Share<N>,
) -> Leaving<N>
    requires config { N.config ≡ Some (arc_value shared).config }
    requires low { (low.taken ≡ []) × (low.producers ≡ producers) }
    requires high { (high.taken ≡ []) × (high.producers ≡ producers) }
    requires free { length free.items ≡ link_count (arc_value shared).config }
    requires share { IsNew share }
    ensures config { (result.config ≡ (arc_value shared).config) × (result.link ≡ link) }
    ensures free { result.free ≡ free.items }
    ensures share { result.share ≡ share }
    ensures bands { (result.low ≡ band low false) × (result.high ≡ band high false) }
{
    Leaving {
        shared,
        link,
        low: Band::of(low, producers),
        high: Band::of(high, producers),
        free,
        share,
    }
}

/// All that the forwarders are made of but their sinks.
pub fn all_leaving<N: RunBrand>(
    alloc: Global,
    common: &Common,
    pipes: &mut Pipes<N>,
    takers: Vec<Consumer<EgressPacket<N>>>,
    shares: &mut Line<Share<N>>,
) -> Result<Vec<Leaving<N>>, AllocError>
    requires config { N.config ≡ Some (arc_value common.now.shared).config }
    requires pipes { (p : Piping) × HaveForwarders (arc_value common.now.shared).config 0 p pipes.old × (takers.items ≡ new_takers p.egress_packets) }
    requires shares { AreNewShares (link_count (arc_value common.now.shared).config + (arc_value common.now.shared).config.processors + 1) (link_count (arc_value common.now.shared).config) shares.old }
    ensures { let c = (arc_value common.now.shared).config in IfOk result (λ v. (p : Piping) → HaveForwarders c 0 p pipes.old → takers.items ≡ new_takers p.egress_packets → HaveForwarders c (link_count c) p pipes.new × IsRest (IsLeavingAt c p) 0 (link_count c) v.items) }
{
    let links = link_count(&common.shared.config);
    let producers = usize::from(common.shared.config.processors) + 2;
    let mut made = Vec::with_capacity(alloc, links)?;
    let mut takers = Line::of(takers);
    for link in 0..links {
        let own = Arc::try_clone(&common.shared)?;
        let free = next_producers(alloc, &mut pipes.free)?;
        let low = takers.next();
        let high = takers.next();
        let share = shares.next();
        let link = LinkIndex::of(link as u16);
        made.push_reserved(leaving_at(own, link, producers, low, high, free, share));
    }
    Ok(made)
}
