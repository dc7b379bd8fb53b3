//! The workers over the ends of a run's pipes: processors and the slow path whole, receivers and forwarders
//! but for their devices.
#![tactic(auto)]

mod common;
mod deciding;
mod entering;
mod leaving;
mod over;

pub use common::Common;
pub use deciding::{processors_of, slow_path_of};
pub use entering::{Entering, all_entering};
pub use leaving::{Leaving, all_leaving};
pub use over::{Over, over_each};
