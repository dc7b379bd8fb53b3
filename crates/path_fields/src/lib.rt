//! A SCION path: its info fields, its hop fields and the cursor at its current hop, read, written and
//! moved exactly (draft-dekater-scion-dataplane, "SCION Path Type").
//!
//! A path is read as a whole into a `Path`, or field by field where it lies: `check_path` makes all
//! tests, and `read_info`, `read_hop`, `set_cursor` and `set_seg_id` cost the same for a path of one
//! hop and of 64. What is read is the plain record of `scion_packet`, and what is written is its text.
//!
//! A path of one hop (path type 2) has 32 bytes and no cursor: `check_one_hop` makes all its tests,
//! and its fields are read and set where they lie.
#![tactic(auto)]

mod fault;
mod fields;
mod in_place;
mod laws;
mod lengths;
mod meta;
mod moves;
mod one_hop;
mod path;
mod reading;
mod reversing;
mod writing;

pub use fault::{NoRoom, PathEnd, PathFault};
pub use fields::{Hop, Info};
pub use in_place::{set_cursor, set_seg_id};
pub use laws::path_is_lawful;
pub use meta::{Meta, check_path, read_meta};
pub use moves::advance;
pub use one_hop::{
    check_one_hop, one_hop_first, one_hop_info, set_one_hop_seg_id, set_second_hop, write_one_hop,
};
pub use path::Path;
pub use reading::{read_hop, read_info, read_path};
pub use reversing::reversed;
pub use writing::write_path;
