//! The answer to a BFD control packet of a link's neighbour: a packet on a path of one hop, back over the link
//! (RFC 5880; draft-dekater-scion-dataplane, "One-Hop Path Type").
//!
//! It says what an end says that keeps no session, and stands in a flow of its own, so that no answer is answered.
//! It is written into a buffer of the caller's; nothing here takes memory.
#![tactic(auto)]

mod answering;
mod ends;
mod hop;
mod laws;

pub use answering::{LONGEST_BFD_ANSWER, bfd_answer_into};
pub use laws::{answers_cross, control_packets_are_answered};
