//! The laws of workers at the router's own rules: what its sources tell, what its book counts, and what its threads did, once
//! they have ended. Nothing here runs.
#![tactic(auto)]

mod laws;

pub use laws::{runs_as_told, shares_add_up};
