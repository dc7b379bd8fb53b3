//! The workers and the pipes of the model by their places: seats in the list of hands, places in the list of pipes, who feeds
//! which pipe, and under which number. A step names links by their interfaces; the model has them by their numbers.
#![tactic(auto)]

mod laws;
mod places;
mod queue;
mod worker_index;

pub use laws::producers_are_numbered;
pub use places::{link_pipe, seat_count, slow_seat};
pub use queue::Queue;
pub use worker_index::{QueueIndex, WorkerIndex};
