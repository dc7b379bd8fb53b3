//! The configuration of a border router as TOML, from what a topology says to it and the forwarding
//! key of its AS.
#![tactic(auto)]

mod lines;
mod members;
mod text;

pub use text::push_config;
