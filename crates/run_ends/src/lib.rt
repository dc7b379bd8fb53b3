//! Pipes of one kind, which all have as many producers. Worker p gets producer p of each pipe, and
//! the pipes take the workers' ends back in this order. One worker may push marks alone. Once the
//! workers have ended, each pipe is settled with its consumer, which took all that its producers
//! had accepted. Settling takes no memory.
#![tactic(auto)]

mod line;
mod making;
mod marking;
mod opening;
mod settling;
mod shutter;

pub use line::Line;
pub use making::{EndMaker, next_ends, next_producers};
pub use marking::{close_at, mark_all};
pub use opening::{NewPipes, new_pipes};
pub use settling::{settle, settle_all};
pub use shutter::Shutter;
