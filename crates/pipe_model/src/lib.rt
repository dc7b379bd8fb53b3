//! The pipeline as a machine: every step is one act of one worker, and any list of steps may be made.
#![tactic(auto)]

mod counting;
mod laws;
mod place;
mod world;

pub use laws::arrivals_stay;
pub use place::Place;
pub use replay_places::Queue;
pub use replay_state::Bytes;
pub use replay_steps::{Step, StepFault};
pub use router_rules::{Outgoing, Worker};
pub use world::{NoMemoryAt, World};
