//! `router run`, over any reader and writer and any running router: tells that it runs, does what each line tells, ends it,
//! and reports.
#![tactic(auto)]

mod closing;
mod command;
mod control;
mod fault;
mod run;
mod run_report;

pub use closing::Closing;
pub use control::{Control, Figures};
pub use fault::RunFault;
pub use run::run_lines;
pub use run_report::push_run_report;
