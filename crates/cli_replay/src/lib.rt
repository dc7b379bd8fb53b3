//! `router replay`, over any reader and writer: reads what arrives and steps of the pipeline, makes the steps, and reports.
#![tactic(auto)]

mod arrive_line;
mod gathered;
mod laws;
mod names;
mod replay;
mod report;
mod step_line;

pub use replay::replay_lines;
