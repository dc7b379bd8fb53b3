//! The receiver, a value that is driven by `turn`.
#![tactic(auto)]

mod intake;
mod pool;
mod receiver;

pub use receiver::{PartedReceiver, Receiver};
