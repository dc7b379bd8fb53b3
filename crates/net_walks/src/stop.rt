//! A stop of a packet on its way.

use process_packet::{Arrival, Routed};

/// A packet at a router of a net, and what is done with it there.
#[derive(Drop)]
pub struct Stop {
    /// The router, by its place among the net's configurations.
    pub router: usize,
    /// The packet as it came there.
    pub arrival: Arrival,
    /// What the router does with it.
    pub routed: Routed,
}
