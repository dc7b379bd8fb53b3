//! The router's devices over UDP: a source and a sink for each of its links, on one socket.
//!
//! What a socket gives and takes is the system's, and no contract tells it. Contracts tell which addresses
//! a link's socket has and where a datagram goes, and that each failure is counted once.
#![tactic(auto)]

mod address;
mod binding;
mod ends;
mod readiness;
mod udp_sink;
mod udp_source;

pub use address::{socket_address, underlay_of};
pub use binding::{BindFault, Devices, bind_links, open_link};
pub use ends::{Ends, destination, ends_of};
pub use udp_sink::UdpSink;
pub use udp_source::UdpSource;
