//! What becomes of a problem.

use process_packet::{Cause, Underlay};

/// What becomes of a problem, where an answer's bytes are in a buffer.
#[derive(Clone, Copy, PartialEq, Eq)]
pub enum AnswerLen {
    /// An answer of `len` bytes leaves by a link, where link 0 is the internal network; `to` is absent
    /// on an external link, whose other end is the only one.
    Send {
        link: u16,
        to: Option<Underlay>,
        len: usize,
    },
    /// There is no answer: for `Cause::NoAnswer` or `Cause::NoWayBack`.
    Drop(Cause),
}

/// What becomes of a problem, with an answer's bytes.
#[derive(Drop)]
pub enum Answered {
    /// An answer leaves by a link, as in `AnswerLen`.
    Send {
        link: u16,
        to: Option<Underlay>,
        bytes: Vec<u8>,
    },
    /// There is no answer, as in `AnswerLen`.
    Drop(Cause),
}
