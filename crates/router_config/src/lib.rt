//! The configuration of a SCION border router, read from TOML: the values of the text, or its first
//! fault.
#![tactic(auto)]

mod config;
mod entry;
mod fault;
mod hint;
mod isd_as;
mod lists;
mod location;
mod neighbours;
mod ports;
mod words;

pub use config::read_config;
pub use fault::ConfigFault;
pub use text_values::{pieces, push_decimal, push_underlay, read_decimal, read_underlay};
pub use words::fault_words;
