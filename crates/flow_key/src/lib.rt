//! The flow that a datagram belongs to, and the processor that routes the flow.
//!
//! Datagrams of one flow go to one processor, so that they leave in the order in which they came. Nothing
//! here takes memory or keeps a copy: a key lends the addresses of its datagram.
#![tactic(auto)]

mod flow;
mod hash;
mod key;

pub use flow::{flow_at, flow_of, is_high};
pub use hash::{fnv1a, processor_of};
pub use key::FlowKey;
