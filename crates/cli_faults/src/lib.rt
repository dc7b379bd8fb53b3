//! Why the program `router` ends before its work is done.
#![tactic(auto)]

mod fault;

pub use fault::{Fault, ImportFile};
