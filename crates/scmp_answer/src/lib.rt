//! The answers of a border router: SCMP error messages and traceroute replies, byte for byte (SCMP
//! specification).
#![tactic(auto)]

mod answer_header;
mod answering;
mod checksum;
mod laws;
mod message;
mod outcome;
mod parsed_packet;
mod way_back;
mod writing;

pub use answering::{LONGEST_ANSWER, answer, answer_into};
pub use laws::{answers_tell_problems, errors_are_left_unanswered, no_error_is_answered};
pub use outcome::{AnswerLen, Answered};
