//! What an IP address stands for: a host's interface, or something else, as a group, and so which hosts a
//! machine can send to.
//!
//! It knows addresses alone: no routes, no masks, and no other addresses of the machine. Nothing here takes
//! memory.
#![tactic(auto)]

mod kind;
mod reach;

pub use kind::{AddressKind, kind_of};
pub use reach::is_host_for;
