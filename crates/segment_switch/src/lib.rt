//! Where a path changes from one segment to the next, and over which links: whether the current hop is
//! such a place, which pairs of links a packet may come and leave by, and which links the stretches of a
//! path may meet at (draft-dekater-scion-dataplane, "Path Construction").
//!
//! It knows a path's segments and kinds of links, and no configuration and no datagram. Nothing here
//! takes memory.
#![tactic(auto)]

mod fault;
mod kind;
mod pairs;
mod switching;

pub use fault::PairFault;
pub use kind::LinkKind;
pub use pairs::{joins, pair_ok};
pub use switching::is_switch;
