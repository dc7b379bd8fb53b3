//! The pipes, and all workers but for their devices.

ghost use Rattle.std.specs.Prelude.{◌≡◌, ◌+◌, ◌*◌, IfOk, Some};
ghost use Rattle.std.specs.Arc.{arc_value};
ghost use Rattle.run_ends.specs.Rows.{new_takers, taker_of};
ghost use Rattle.router_rules.specs.Links.{link_count};
ghost use Rattle.run_workers.specs.Shares.{AreNewShares};
ghost use Rattle.run_pipes.specs.Piping.{Piping};
ghost use Rattle.run_pipes.specs.Pipes.{HaveForwarders, HaveProcessors};
ghost use Rattle.router_run.specs.BareWorkers.{AreAfterReceivers, AreBareWorkers};

use packet_ledger::Share;
use router_rules::link_count;
use ruled_pipe::{Consumer, Producer};
use run_ends::{Line, Shutter};
use run_pipes::{Pipes, Takers, fill, open_all, shutters};
use run_workers::{
    Common, Entering, Leaving, all_entering, all_leaving, processors_of, slow_path_of,
};
use std::alloc::{AllocError, Global};
use std::sync::{Arc, Wait};
use worker_parts::{Buffer, EgressPacket, Gate, Packet, RunBrand, SlowPathRequest};
use worker_processor::{Processor, SlowPath};

/// The pipes, what the workers are made of, before any device is taken, and the ends that filled the pipes of
/// free buffers.
#[derive(Drop)]
pub struct BareWorkers<N: RunBrand, G: Gate> {
    pub receivers: Vec<Entering<N>>,
    pub processors: Vec<Processor<N, G>>,
    pub slow: SlowPath<N>,
    pub forwarders: Vec<Leaving<N>>,
    pub shutters: Vec<Shutter<EgressPacket<N>>>,
    pub pipes: Pipes<N>,
    pub fillers: Vec<Producer<Buffer>>,
}

/// The workers after the receivers, and the controller's ends.
#[derive(Drop)]
struct AfterReceivers<N: RunBrand, G: Gate> {
    processors: Vec<Processor<N, G>>,
    slow: SlowPath<N>,
    forwarders: Vec<Leaving<N>>,
    shutters: Vec<Shutter<EgressPacket<N>>>,
}

fn after_receivers<N: RunBrand, G: Gate + Drop>(
    alloc: Global,
    common: &Common,
    gate: G,
    pipes: &mut Pipes<N>,
    packets: Vec<Consumer<Packet<N>>>,
    requests: Consumer<SlowPathRequest<N>>,
    egress_packets: Vec<Consumer<EgressPacket<N>>>,
    shares: &mut Line<Share<N>>,
) -> Result<AfterReceivers<N, G>, AllocError>
    requires config { N.config ≡ Some (arc_value common.now.shared).config }
    requires pipes { (p : Piping) × HaveProcessors (arc_value common.now.shared).config 0 p pipes.old × (packets.items ≡ new_takers p.packets) × (requests ≡ taker_of p.requests) × (egress_packets.items ≡ new_takers p.egress_packets) }
    requires shares { AreNewShares (link_count (arc_value common.now.shared).config) ((arc_value common.now.shared).config.processors + 1 + link_count (arc_value common.now.shared).config) shares.old }
    ensures { let c = (arc_value common.now.shared).config in IfOk result (λ a. (p : Piping) → HaveProcessors c 0 p pipes.old → packets.items ≡ new_takers p.packets → requests ≡ taker_of p.requests → egress_packets.items ≡ new_takers p.egress_packets → HaveForwarders c (link_count c) p pipes.new × AreAfterReceivers c p a.processors.items a.slow a.forwarders.items a.shutters.items) }
{
    // At most 33, which bounds the controller's ends.
    let _ = link_count(&common.shared.config);
    let gate = Arc::new(alloc, gate)?;
    let processors = processors_of(alloc, common, &gate, pipes, packets, shares)?;
    let slow = slow_path_of(alloc, common, pipes, requests, shares.next())?;
    let shutters = shutters(alloc, &common.shared, &mut pipes.egress_packets)?;
    let forwarders = all_leaving(alloc, common, pipes, egress_packets, shares)?;
    Ok(AfterReceivers {
        processors,
        slow,
        forwarders,
        shutters,
    })
}

/// Pipes and workers, all over the same configuration.
pub fn make_all<N: RunBrand, G: Gate + Drop, R: Wait>(
    rt: &R,
    alloc: Global,
    common: &Common,
    gate: G,
    shares: Vec<Share<N>>,
) -> Result<BareWorkers<N, G>, AllocError>
    requires config { N.config ≡ Some (arc_value common.now.shared).config }
    requires shares { AreNewShares 0 (2 * link_count (arc_value common.now.shared).config + (arc_value common.now.shared).config.processors + 1) shares.items }
    ensures { IfOk result (λ m. AreBareWorkers (arc_value common.now.shared).config m) }
{
    let (mut pipes, takers) = open_all(alloc, &common.shared)?;
    let Takers {
        packets,
        requests,
        egress_packets,
        free_buffers,
    } = takers;
    let mut shares = Line::of(shares);
    let receivers = all_entering(alloc, common, &mut pipes, free_buffers, &mut shares)?;
    let after = after_receivers(
        alloc,
        common,
        gate,
        &mut pipes,
        packets,
        requests,
        egress_packets,
        &mut shares,
    )?;
    // A receiver begins with the one that is left.
    let buffers = common.shared.config.buffers as usize - 1;
    let fillers = fill(rt, alloc, &mut pipes.free, buffers)?;
    Ok(BareWorkers {
        receivers,
        processors: after.processors,
        slow: after.slow,
        forwarders: after.forwarders,
        shutters: after.shutters,
        pipes,
        fillers,
    })
}
