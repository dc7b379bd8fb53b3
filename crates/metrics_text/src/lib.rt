//! The counts of a running router as text, in Prometheus' exposition format, version 0.0.4:
//! families of samples, each behind its HELP and its TYPE. Names are those of the scionproto router
//! where the meaning is the same.
#![tactic(auto)]

mod families;
mod link_counts;
mod reasons;
mod samples;

pub use families::push_metrics;
pub use link_counts::LinkCounts;
