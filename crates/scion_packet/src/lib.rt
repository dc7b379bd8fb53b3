//! The one SCION packet of the router: plain records, the field tables that spell them, and the total
//! reading of each number from its place. Every layer above speaks of packets in these words; there is
//! no code here but the laws that reading and spelling keep.
#![tactic(auto)]

mod laws;

pub use laws::{
    header_laws, kinds_are_apart, offset_laws, one_hop_laws, one_hop_written_over, packet_laws,
    path_laws, path_written_over, reversed_laws,
};
