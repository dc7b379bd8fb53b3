//! Tests of the engines of the router's commands, over readers and writers in memory, and of what they stand
//! on: the decision and its answers, and what reads texts. They are kept apart from these crates, each of which
//! would be proved a second time for its tests. What the program shows, in lines and words, is tried by
//! `tests/lines` instead.
#![tactic(auto)]

#[cfg(test)]
mod answers;
mod calls;
#[cfg(test)]
mod config;
#[cfg(test)]
mod control;
#[cfg(test)]
mod decision;
#[cfg(test)]
mod links;
#[cfg(test)]
mod ports;
#[cfg(test)]
mod replay;
#[cfg(test)]
mod route;
#[cfg(test)]
mod run;
#[cfg(test)]
mod sound;
#[cfg(test)]
mod words;

pub use calls::count_call;
