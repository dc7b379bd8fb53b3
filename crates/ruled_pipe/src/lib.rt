//! A bounded pipe between threads, with several producers and one consumer.
//!
//! A pipe carries entries: payloads of any type, and marks, each with the number of its producer. Its
//! queue is under a rule: each producer's entries are in what was taken and is held just as they were
//! accepted, and no more are held than the capacity. Each end is a token of what its holder has seen: the
//! offers that were accepted and those that were refused, what was taken, and the looks that found
//! nothing. These lists exist in proofs alone.
//!
//! Each call makes one step of the queue. Before it, a `take` of a pipe for 512 entries or more now and then
//! reads how many are held, and spins for some microseconds where these are few. That is no step: it takes
//! nothing, and changes no answer. It keeps the consumer some slots behind its producers, since each entry costs
//! them several times as much where both use the same cache lines.
//!
//! `offer`, `mark`, `take` and `gather` take no memory; the first three may spin while another thread is inside
//! a call, and wait for no room and no item.
#![tactic(auto)]

mod consumer;
mod entry;
mod gathered;
mod keeper;
mod notes;
mod pace;
mod pipe;
mod producer;
mod rule;

pub use consumer::Consumer;
pub use entry::{Entry, Load, Mark, Refusal};
pub use gathered::Gathered;
pub use keeper::Keeper;
pub use pipe::Pipe;
pub use producer::{Full, Producer};
