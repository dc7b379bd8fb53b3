//! The answer to a datagram that the decision answers: an SCMP message (SCMP specification) or a BFD control packet
//! (RFC 5880), by the kind of what it is answered for.
#![tactic(auto)]

mod answering;
mod laws;

pub use answering::{LONGEST_ANSWER, answer, answer_into};
pub use laws::control_packets_are_answered;
pub use scmp_answer::{AnswerLen, Answered};
