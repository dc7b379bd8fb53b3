//! The check of one hop field: how long it is good for, the MAC by which the AS authorised it, and the
//! chaining of segment identifiers from hop to hop (draft-dekater-scion-dataplane, "Path
//! Authorization").
//!
//! It knows one info field and one hop field, and no link, no configuration and no clock: the moment is
//! handed in. Nothing here takes memory.
#![tactic(auto)]

mod beaconing;
mod expiry;
mod laws;
mod mac;

pub use beaconing::beacon;
pub use expiry::expired;
pub use laws::{hops_expire_on_time, inputs_are_one_to_one, macs_are_whole};
pub use mac::{chain, hop_mac, mac_input, verify};
