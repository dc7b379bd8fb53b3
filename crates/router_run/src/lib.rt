//! The running router: workers in threads of their own, over any sources, sinks and gate. It names no
//! socket, file or clock of its own.
#![tactic(auto)]

mod bare_workers;
mod fault;
mod joining;
mod preparing;
mod running;
mod teams;
mod threads;

pub use fault::StartFault;
pub use run_pipes::CloseFault;
pub use run_report::Report;
pub use running::{Running, start};
