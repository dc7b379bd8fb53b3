//! The port at which the application of a packet's end host listens, as the packet's upper layer tells
//! it: the destination port of UDP, the identifier of an SCMP echo or traceroute reply, or, of an SCMP
//! error message, the port from which the packet that it quotes was sent.
//!
//! Everything is read where it lies. Nothing takes memory, and no answer depends on a configuration.
#![tactic(auto)]

mod laws;
mod layer;
mod port;
mod quote;

pub use laws::{
    errors_give_the_quoted_port, nothing_else_gives_a_port, replies_give_their_identifier,
    udp_gives_its_destination,
};
pub use port::destination_port;
