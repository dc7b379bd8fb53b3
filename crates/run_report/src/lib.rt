//! What a run comes to: room for it, taken before the first thread is made, and the report, made of workers
//! that came back. Making it takes no memory.
#![tactic(auto)]

mod finishing;
mod joined;
mod parting;
mod space;

pub use finishing::{Left, Parted, Report, part_all, report_of};
pub use joined::Joined;
pub use space::{Space, space_for};
