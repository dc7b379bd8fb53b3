//! Single values as text: decimals, pieces of a text, addresses of the underlay.
#![tactic(auto)]

mod address;
mod decimal;
pub mod pieces;
mod shown;

pub use address::read_underlay;
pub use decimal::{push_decimal, read_decimal};
pub use shown::push_underlay;
