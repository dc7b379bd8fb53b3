//! One step of the pipeline: its state at one moment, and each act of a worker on it.
#![tactic(auto)]

mod deciding;
mod marking;
mod passing;
mod receiving;
mod sending;
mod state;
mod step;

pub use state::{State, sources};
pub use step::{Step, StepFault};
