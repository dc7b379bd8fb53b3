//! The pipes of a run, the events on which workers sleep, and the ends of the pipes as workers have them and as
//! the controller does, which closes links by them.
#![tactic(auto)]

mod closing;
mod filling;
mod handing;
mod pipes;
mod waking;

pub use closing::{CloseFault, Controller};
pub use filling::fill;
pub use handing::{End, outlets, shutters, take_back};
pub use pipes::{Pipes, Takers, open_all};
pub use waking::{Events, events_for, notify_all, notify_one};
