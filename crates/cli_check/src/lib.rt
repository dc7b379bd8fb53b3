//! `router check`: whether a configuration is good, what in it will hurt, and which sockets can't be had; and
//! whether the routers of several configurations fit one another.
#![tactic(auto)]

mod check;
mod net;
mod sockets;
mod words;

pub use check::{check_config, config_of};
pub use net::check_net;
pub use words::tell_warnings;
