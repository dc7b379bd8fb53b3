//! Fields of bits as rows of bytes: the words in which every format of the router is written, reads and
//! writes of numbers at a place, and the laws of tables. It knows nothing of SCION.
#![tactic(auto)]

mod laws;
mod reading;
mod writing;

pub use laws::{numbers_read_back, one_spelling, written_stands};
pub use reading::{array_at, u16_at, u32_at, u48_at};
pub use writing::{put, put_u8, put_u16, put_u32, put_u48};
