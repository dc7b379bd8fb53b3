//! Room for what comes back with the workers, taken before the first thread is made.

ghost use Rattle.std.specs.Prelude.{◌≤◌, IfOk};
ghost use Rattle.run_report.specs.Room.{HaveSpace};

use packet_ledger::Share;
use ruled_pipe::Consumer;
use std::alloc::{AllocError, Global};
use worker_parts::{EgressPacket, Packet, RunBrand};

/// Room for the consumers of the processors' and the links' pipes, for the shares, for what each link sent, and
/// for the devices.
#[derive(Drop)]
pub struct Space<N: RunBrand, S, K> {
    pub packets: Vec<Consumer<Packet<N>>>,
    pub egress_packets: Vec<Consumer<EgressPacket<N>>>,
    pub shares: Vec<Share<N>>,
    pub sent: Vec<u128>,
    pub sources: Vec<S>,
    pub sinks: Vec<K>,
}

/// Room for what comes back of a router with these numbers of links and processors.
pub fn space_for<N: RunBrand, S: Drop, K: Drop>(
    alloc: Global,
    links: usize,
    processors: usize,
) -> Result<Space<N, S, K>, AllocError>
    requires few { (links ≤ 33) × (processors ≤ 16) }
    ensures { IfOk result (λ r. HaveSpace links processors r) }
{
    let sent = Vec::<u128>::with_capacity(alloc, links)?;
    let shares = Vec::<Share<N>>::with_capacity(alloc, 2 * links + processors + 1)?;
    let sources = Vec::<S>::with_capacity(alloc, links)?;
    let sinks = Vec::<K>::with_capacity(alloc, links)?;
    let packets = Vec::<Consumer<Packet<N>>>::with_capacity(alloc, processors)?;
    let egress_packets = Vec::<Consumer<EgressPacket<N>>>::with_capacity(alloc, 2 * links)?;
    Ok(Space {
        packets,
        egress_packets,
        shares,
        sent,
        sources,
        sinks,
    })
}
