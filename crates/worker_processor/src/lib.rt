//! The processor and the slow path, which share how packets leave: each a value that is driven by `turn`.
#![tactic(auto)]

mod exits;
mod processor;
mod slow_path;

pub use processor::{PartedProcessor, Processor};
pub use slow_path::{PartedSlowPath, SlowPath};
