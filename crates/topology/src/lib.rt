//! What scionproto's `topology.json` says to one border router of its AS.
//!
//! The file's keys are those of scionproto's `topology.json`. A host name in place of an address is
//! refused: nothing here asks the system for anything. What this router has no words for is told
//! beside what it has.
#![tactic(auto)]

mod address;
mod bfd;
mod entry;
mod fault;
mod interface;
mod left_out;
mod port_range;
mod routers;
mod servers;
mod topology;

pub use fault::{Found, Place, Refusal, TopologyFault};
pub use interface::Interface;
pub use left_out::LeftOut;
pub use topology::{Lists, Topology, read_topology};
