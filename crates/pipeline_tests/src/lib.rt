//! Tests of the pipeline as a machine and of its places, by their public calls, and of what its threads share: the pipe and
//! the ledger. They are kept apart from these crates, each of which would be proved a second time for its tests.
#![tactic(auto)]

#[cfg(test)]
mod acts;
#[cfg(test)]
mod arrivals;
#[cfg(test)]
mod ledger;
#[cfg(test)]
mod pipe;
#[cfg(test)]
mod places;
#[cfg(test)]
mod runs;
#[cfg(test)]
mod samples;
mod steps;
#[cfg(test)]
mod timing;

pub use steps::{accepts, closes, gives};
