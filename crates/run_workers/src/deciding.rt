//! The processors and the slow path.

ghost use Rattle.std.specs.Prelude.{◌≡◌, ◌+◌, ◌<◌, IfOk, [], Some};
ghost use Rattle.std.specs.Arc.{arc_value};
ghost use Rattle.packet_ledger.specs.Share.{new_share};
ghost use Rattle.router_rules.specs.Links.{link_count};
ghost use Rattle.ruled_pipe.specs.Pipe.{IsTakerOf, Shape};
ghost use Rattle.run_ends.specs.Rows.{new_takers, taker_of};
ghost use Rattle.run_pipes.specs.Piping.{Piping};
ghost use Rattle.run_pipes.specs.Pipes.{HaveProcessors, HaveSlowPath};
ghost use Rattle.run_pipes.specs.Rest.{IsRest};
ghost use Rattle.run_workers.specs.Kits.{IsAnsweringAt, IsWorkingAt, IsWorkingThere};
ghost use Rattle.run_workers.specs.Shares.{AreNewShares, HaveGone};

use crate::common::Common;
use packet_ledger::Share;
use router_rules::link_count;
use ruled_pipe::Consumer;
use run_ends::{Line, next_producers};
use run_pipes::{Pipes, outlets};
use std::alloc::{AllocError, Global};
use std::sync::Arc;
use worker_parts::{Gate, Inlet, Outlet, Packet, RunBrand, SlowPathRequest, both};
use worker_processor::{Processor, SlowPath};

// The processor of a number, with its consumer and its share, and the next of its ends.
fn processor_of<N: RunBrand, G: Gate + Drop>(
    alloc: Global,
    common: &Common,
    gate: &Arc<G, Global>,
    index: u8,
    pipes: &mut Pipes<N>,
    taker: Consumer<Packet<N>>,
    share: Share<N>,
) -> Result<Processor<N, G>, AllocError>
    requires config { N.config ≡ Some (arc_value common.now.shared).config }
    requires pipes { (p : Piping) × HaveProcessors (arc_value common.now.shared).config index p pipes.old }
    requires index { index < (arc_value common.now.shared).config.processors }
    requires taker { (taker.taken ≡ []) × (taker.producers ≡ link_count (arc_value common.now.shared).config) }
    requires share { share ≡ new_share (link_count (arc_value common.now.shared).config + index) }
    ensures { let c = (arc_value common.now.shared).config in IfOk result (λ w. (p : Piping) → HaveProcessors c index p pipes.old → HaveProcessors c (index + 1) p pipes.new × ((own : Shape) → IsTakerOf own taker → IsWorkingAt c p index own w)) }
{
    let producers = link_count(&common.shared.config);
    let asking = pipes.requests.producer(alloc)?;
    let events = common.events.forwarders.as_slice();
    let links = outlets(alloc, &mut pipes.egress_packets, events, 2)?;
    let free = next_producers(alloc, &mut pipes.free)?;
    let event = Arc::try_clone(&common.events.slow)?;
    let shared = Arc::try_clone(&common.shared);
    let (shared, gate) = both(shared, Arc::try_clone(gate))?;
    let from = Inlet::of(taker, producers);
    let slow = Outlet::of(asking, Some(event));
    let processor = Processor::new(shared, index, gate, from, links, slow, free, share);
    Ok(processor)
}

/// The processors, each with its consumer and the next ends of the pipes around it.
pub fn processors_of<N: RunBrand, G: Gate + Drop>(
    alloc: Global,
    common: &Common,
    gate: &Arc<G, Global>,
    pipes: &mut Pipes<N>,
    takers: Vec<Consumer<Packet<N>>>,
    shares: &mut Line<Share<N>>,
) -> Result<Vec<Processor<N, G>>, AllocError>
    requires config { N.config ≡ Some (arc_value common.now.shared).config }
    requires pipes { (p : Piping) × HaveProcessors (arc_value common.now.shared).config 0 p pipes.old × (takers.items ≡ new_takers p.packets) }
    requires shares { AreNewShares (link_count (arc_value common.now.shared).config) (arc_value common.now.shared).config.processors shares.old }
    ensures shares { IfOk result (λ _. HaveGone (link_count (arc_value common.now.shared).config) (arc_value common.now.shared).config.processors shares.old shares.new) }
    ensures made { let c = (arc_value common.now.shared).config in IfOk result (λ v. (p : Piping) → HaveProcessors c 0 p pipes.old → takers.items ≡ new_takers p.packets → HaveProcessors c c.processors p pipes.new × IsRest (IsWorkingThere c p) 0 c.processors v.items) }
{
    let count = common.shared.config.processors;
    let mut made = Vec::with_capacity(alloc, usize::from(count))?;
    let mut takers = Line::of(takers);
    for index in 0..count {
        let taker = takers.next();
        let share = shares.next();
        let processor = processor_of(alloc, common, gate, index, pipes, taker, share)?;
        made.push_reserved(processor);
    }
    Ok(made)
}

/// The slow path, with its consumer and the ends after the processors'.
pub fn slow_path_of<N: RunBrand>(
    alloc: Global,
    common: &Common,
    pipes: &mut Pipes<N>,
    taker: Consumer<SlowPathRequest<N>>,
    share: Share<N>,
) -> Result<SlowPath<N>, AllocError>
    requires config { N.config ≡ Some (arc_value common.now.shared).config }
    requires pipes { (p : Piping) × HaveProcessors (arc_value common.now.shared).config (arc_value common.now.shared).config.processors p pipes.old × (taker ≡ taker_of p.requests) }
    requires share { share ≡ new_share (link_count (arc_value common.now.shared).config + (arc_value common.now.shared).config.processors) }
    ensures { let c = (arc_value common.now.shared).config in IfOk result (λ a. (p : Piping) → HaveProcessors c c.processors p pipes.old → taker ≡ taker_of p.requests → HaveSlowPath c p pipes.new × IsAnsweringAt c p a) }
{
    let processors = usize::from(common.shared.config.processors);
    let events = common.events.forwarders.as_slice();
    let links = outlets(alloc, &mut pipes.egress_packets, events, 2)?;
    let free = next_producers(alloc, &mut pipes.free)?;
    let shared = Arc::try_clone(&common.shared)?;
    let from = Inlet::of(taker, processors);
    let slow_path = SlowPath::new(shared, from, links, free, share);
    Ok(slow_path)
}
