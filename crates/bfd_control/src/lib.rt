//! BFD control packets (RFC 5880, 4.1): which of them an end takes, and what an end that keeps no session says
//! in answer to one.
//!
//! Bidirectional Forwarding Detection finds a link down by the packets that don't come any more. An end that
//! hears a control packet and answers just that one, as `write_answer` does, is a passive end to its
//! neighbour: the neighbour's session comes up and stays up while the answers reach it. Nothing here
//! remembers a packet, and nothing takes memory.
#![tactic(auto)]

mod answering;
mod laws;
mod reception;
mod state;

pub use answering::write_answer;
pub use laws::{
    answers_are_orderly, answers_are_taken, answers_bring_up, answers_tell_states,
    control_packet_laws, reception_tests, sessions_go_so,
};
pub use reception::{CONTROL_PACKET_LEN, is_taken};
