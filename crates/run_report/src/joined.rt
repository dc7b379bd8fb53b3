//! Workers that came back from their threads.

use run_ends::Shutter;
use worker_forwarder::Forwarder;
use worker_parts::{EgressPacket, Gate, RunBrand, Sink, Source};
use worker_processor::{Processor, SlowPath};
use worker_receiver::Receiver;

/// Workers that came back, and the controller's ends: a crew (`crew_in`).
#[derive(Drop)]
pub struct Joined<N, S, K, G>
where
    N: RunBrand,
    S: Source,
    K: Sink,
    G: Gate,
{
    pub receivers: Vec<Receiver<N, S>>,
    pub processors: Vec<Processor<N, G>>,
    pub slow: SlowPath<N>,
    pub forwarders: Vec<Forwarder<N, K>>,
    pub shutters: Vec<Shutter<EgressPacket<N>>>,
}
