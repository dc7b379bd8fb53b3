//! What the pipeline asks of the router: its decision, its answers and its flows as the rules that the
//! pipeline's laws are stated over, and its links numbered in ascending order.
#![tactic(auto)]

mod faults;
mod flows;
mod index;
mod interface;
mod laws;
mod links;
mod outgoing;
mod ports;
mod shared;
mod worker;

pub use faults::inspect;
pub use flows::{is_urgent, processor, processor_or_fault};
pub use index::LinkIndex;
pub use interface::Interface;
pub use laws::{
    causes_are_apart, examples, links_stand_in_order, replies_are_answers, rules_are_lawful,
};
pub use links::{has_two_bands, interface_at, link_count, link_index};
pub use outgoing::Outgoing;
pub use ports::Ports;
pub use shared::Shared;
pub use worker::Worker;
