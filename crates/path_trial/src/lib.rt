//! A path tried between two hosts of this machine, over an AS, its core AS and another AS. First a beacon crosses
//! each link both ways, each with an answer over the hop fields that it brought. Then, as ping and traceroute do,
//! one packet is sent, and the router at each interface of the path is asked for an answer.
//!
//! The routers' configurations tell how their ASes hang together, with the keys: the hop fields are made as
//! beacons make them.
#![tactic(auto)]

mod beacon;
mod header;
mod message;
mod packet;
mod plan;
mod probe;
mod segment;

pub use plan::config_at;
pub use probe::{Probe, probe_of};
