//! What a sink is told of a packet.

use process_packet::Underlay;

/// A packet that left, or the answer to one, named by the packet's arriving link and its number there.
#[derive(Clone, Copy, PartialEq, Eq)]
pub struct Outgoing {
    /// The interface by which the packet came; 0 is the internal network.
    pub arrived: u16,
    /// Its number among the datagrams of that link, from 1 on.
    pub number: u64,
    /// Whether this is the answer to it.
    pub answer: bool,
    /// To whom it leaves; absent on an external link.
    pub to: Option<Underlay>,
}
