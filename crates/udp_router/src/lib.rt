//! The router over UDP: its sockets, its workers, and the one who leads it by lines.
#![tactic(auto)]

mod over_udp;
mod run;
mod showing;

pub use run::run_router;
pub use showing::Metrics;
