//! The forwarder, a value that is driven by `turn`.
#![tactic(auto)]

mod band;
mod delivery;
mod forwarder;

pub use band::{Band, Taken};
pub use forwarder::{Forwarder, PartedForwarder};
