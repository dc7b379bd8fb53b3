//! A datagram that arrived, and what is done with it.

use crate::cause::Cause;
use crate::decision::Problem;
use crate::underlay::Underlay;
use thiserror::Error;

/// A datagram that arrived.
#[derive(Drop)]
pub struct Arrival {
    /// The link by which it came; 0 is the internal network.
    pub link: u16,
    /// Its number among the datagrams of that link, from 1 on.
    pub number: u64,
    /// The underlay's source of it.
    pub source: Underlay,
    /// When it came, in seconds of Unix time.
    pub now: u64,
    /// The datagram, from its common header on.
    pub bytes: Vec<u8>,
}

/// What is done with a datagram, and the bytes that leave.
#[derive(Drop)]
pub enum Routed {
    /// It leaves by a link with these bytes, where link 0 is the internal network; `to` is absent on an
    /// external link, whose other end is the only one.
    Send {
        link: u16,
        to: Option<Underlay>,
        bytes: Vec<u8>,
    },
    /// It is answered.
    Answer(Problem),
    /// It is dropped.
    Drop(Cause),
}

/// No memory was left for what leaves.
#[derive(Clone, Copy, Debug, PartialEq, Eq, Error)]
#[error("no memory")]
pub struct NoMemory;
