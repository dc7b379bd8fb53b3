//! What a run comes to, to be read aloud: what was received and what left, what was dropped and why, and the report. Nothing
//! here runs.
#![tactic(auto)]

mod laws;

pub use laws::promises_are_kept;
