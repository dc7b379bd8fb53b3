//! What is lawful in a configuration and will hurt all the same: addresses that don't go together, sizes that
//! waste, links that no beacons cross, and keys that nobody reads.
//!
//! `warnings_of` looks at the values of a configuration, `strays_in` at the keys of the table that it was read
//! from. Neither asks the system for anything.
#![tactic(auto)]

mod addresses;
mod keys;
mod shown;
mod warning;
mod warnings;

pub use keys::{Place, Reason, Stray, strays_in};
pub use shown::Shown;
pub use warning::Warning;
pub use warnings::warnings_of;
