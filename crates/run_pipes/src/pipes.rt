//! The pipes of a router.

ghost use Rattle.std.specs.Prelude.{◌≡◌, ◌+◌, ◌*◌, ◌<◌, ◌≤◌, [], true, IfOk};
ghost use Rattle.ruled_pipe.specs.Consumer.{new_taker};
ghost use Rattle.router_rules.specs.Links.{link_count};
ghost use Rattle.run_ends.specs.Opened.{AreNewPipes};
ghost use Rattle.run_ends.specs.Finished.{HaveFinished};
ghost use Rattle.run_ends.specs.Settled.{AreSettled, IsDone, IsEnded};
ghost use Rattle.run_pipes.specs.Piping.{Piping, egress_capacity};
ghost use Rattle.run_pipes.specs.Pipes.{AreTakersOf, HaveAllBack, HaveReceivers, LinkRows, ReceiverRows, RequestRow};

use crate::handing::is_used;
use router_rules::{Shared, link_count};
use ruled_pipe::{Consumer, Keeper};
use run_ends::{NewPipes, new_pipes, settle, settle_all};
use std::alloc::{AllocError, Global};
use worker_parts::{Buffer, EgressPacket, Packet, RunBrand, SlowPathRequest, both};

// The processors' pipes, with the receivers as their producers.
fn packet_pipes<N: RunBrand>(
    alloc: Global,
    shared: &Shared,
) -> Result<NewPipes<Packet<N>>, AllocError>
    ensures { IfOk result (λ n. AreNewPipes (λ _. shared.now.config.capacity) (link_count shared.now.config) shared.now.config.processors n.pipes.items n.takers.items) }
{
    let links = link_count(&shared.config);
    let processors = usize::from(shared.config.processors);
    let capacity = shared.config.capacity as usize;
    let opened = new_pipes(alloc, processors, capacity, links)?;
    Ok(opened)
}

// The capacity of the pipe at a place. One that isn't used holds one entry.
fn capacity_at(shared: &Shared, at: usize) -> usize
    requires { at < 66 }
    ensures few { (0 < result) × (result ≤ 65536) }
    ensures capacity { result ≡ egress_capacity shared.now.config at }
{
    if is_used(shared, at) {
        shared.config.capacity as usize
    } else {
        1
    }
}

// The links' pipes, two of each, with processors, slow path and controller as their producers. The
// high band's of a link with one band isn't used.
fn egress_pipes<N: RunBrand>(
    alloc: Global,
    shared: &Shared,
) -> Result<NewPipes<EgressPacket<N>>, AllocError>
    ensures { IfOk result (λ n. AreNewPipes (egress_capacity shared.now.config) (shared.now.config.processors + 2) (2 * link_count shared.now.config) n.pipes.items n.takers.items) }
{
    let links = link_count(&shared.config);
    let producers = usize::from(shared.config.processors) + 2;
    let mut opened = NewPipes::none(alloc);
    for at in 0..2 * links {
        opened = opened.with_pipe(alloc, capacity_at(shared, at), producers)?;
    }
    Ok(opened)
}

// The pipes of free buffers, one a link, with processors, slow path, forwarders and whoever fills
// them as their producers.
fn free_pipes(alloc: Global, shared: &Shared) -> Result<NewPipes<Buffer>, AllocError>
    ensures { IfOk result (λ n. AreNewPipes (λ _. shared.now.config.buffers) (shared.now.config.processors + 2 + link_count shared.now.config) (link_count shared.now.config) n.pipes.items n.takers.items) }
{
    let links = link_count(&shared.config);
    let processors = usize::from(shared.config.processors);
    let buffers = shared.config.buffers as usize;
    let opened = new_pipes(alloc, links, buffers, processors + 2 + links)?;
    Ok(opened)
}

// The slow path's pipe, with the processors as its producers.
fn request_pipe<N: RunBrand>(
    alloc: Global,
    shared: &Shared,
) -> Result<(Keeper<SlowPathRequest<N>>, Consumer<SlowPathRequest<N>>), AllocError>
    ensures pipe { IfOk result (λ r. (r.0.producers ≡ shared.now.config.processors) × (r.0.capacity ≡ shared.now.config.capacity)) }
    ensures new { IfOk result (λ r. (r.0.made ≡ 0) × (r.0.senders ≡ [])) }
    ensures taker { IfOk result (λ r. r.1 ≡ new_taker r.0.pipe r.0.producers r.0.capacity) }
{
    let processors = usize::from(shared.config.processors);
    let capacity = shared.config.capacity as usize;
    let made = Keeper::new(alloc, capacity, processors)?;
    Ok(made)
}

/// The consumers of the router's pipes.
#[derive(Drop)]
pub struct Takers<N: RunBrand> {
    /// The processors'.
    pub packets: Vec<Consumer<Packet<N>>>,
    /// The slow path's.
    pub requests: Consumer<SlowPathRequest<N>>,
    /// The forwarders', two of each.
    pub egress_packets: Vec<Consumer<EgressPacket<N>>>,
    /// The receivers', of free buffers.
    pub free_buffers: Vec<Consumer<Buffer>>,
}

/// The pipes of a router, by kinds. Before a run each worker gets the next of their ends, and after
/// it they take these back, in the same order.
#[derive(Drop)]
pub struct Pipes<N: RunBrand> {
    /// Packets, from the receivers to the processors.
    pub packets: Vec<Keeper<Packet<N>>>,
    /// What processors ask of the slow path.
    pub requests: Keeper<SlowPathRequest<N>>,
    /// The links', two of each: low band, high band.
    pub egress_packets: Vec<Keeper<EgressPacket<N>>>,
    /// Free buffers, one a link.
    pub free: Vec<Keeper<Buffer>>,
}

/// New pipes, and their consumers.
pub fn open_all<N: RunBrand>(
    alloc: Global,
    shared: &Shared,
) -> Result<(Pipes<N>, Takers<N>), AllocError>
    ensures { IfOk result (λ r. (p : Piping) × HaveReceivers shared.now.config 0 p r.0 × AreTakersOf p r.1) }
{
    let free = free_pipes(alloc, shared)?;
    let (requests, request_taker) = request_pipe(alloc, shared)?;
    let packets = packet_pipes(alloc, shared);
    let (packets, egress_packets) = both(packets, egress_pipes(alloc, shared))?;
    let pipes = Pipes {
        packets: packets.pipes,
        requests,
        egress_packets: egress_packets.pipes,
        free: free.pipes,
    };
    let takers = Takers {
        packets: packets.takers,
        requests: request_taker,
        egress_packets: egress_packets.takers,
        free_buffers: free.takers,
    };
    Ok((pipes, takers))
}

impl<N: RunBrand> Pipes<N> {
    /// Settles the pipes, each with its consumer, once the workers have ended and their ends are
    /// back. It takes no memory.
    pub fn settle(
        self,
        packet_takers: Vec<Consumer<Packet<N>>>,
        request_taker: Consumer<SlowPathRequest<N>>,
        egress_takers: Vec<Consumer<EgressPacket<N>>>,
    )
        requires { (rs : ReceiverRows) × (ms : RequestRow) × (ls : LinkRows) × (p : Piping) × HaveAllBack rs ms ls p self × HaveFinished p.packets rs packet_takers.items × IsEnded true p.requests ms request_taker × HaveFinished p.egress_packets ls egress_takers.items }
        ensures { (rs : ReceiverRows) (ms : RequestRow) (ls : LinkRows) (p : Piping) → HaveAllBack rs ms ls p self → AreSettled 0 rs p.packets packet_takers.items × IsDone p.requests ms request_taker × AreSettled 0 ls p.egress_packets egress_takers.items }
    {
        let Pipes {
            packets,
            requests,
            egress_packets,
            free: _,
        } = self;
        settle_all(packets, packet_takers);
        settle(requests, request_taker);
        settle_all(egress_packets, egress_takers);
    }
}
