//! Several configurations as one net: its wires by the addresses of their links, and what doesn't fit in it, in words.
#![tactic(auto)]

mod laws;
mod named;
mod wires;
mod words;

pub use laws::wires_join_pairs;
pub use wires::{is_wired, net_of_configs};
pub use words::{open_words, words_of};
