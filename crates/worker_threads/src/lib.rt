//! Workers in threads of their own: run to their ends, and joined.
#![tactic(auto)]

mod idle;
mod joining;
mod pace;
mod starting;
mod thread;
mod thread_control;

pub use joining::{join_all, join_worker};
pub use starting::{Started, Team, give_up, start_each};
pub use thread::{Handle, STACK, WillEnd, start_worker, work_on};
pub use thread_control::ThreadControl;
