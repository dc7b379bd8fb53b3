//! What is done with a packet.

use crate::cause::Cause;
use crate::underlay::Underlay;

/// What a packet is answered for: what its sender is told by SCMP (SCMP specification, "Message Format"), or by BFD
/// (RFC 5880).
#[derive(Clone, Copy, PartialEq, Eq)]
pub struct Problem {
    /// The type of the SCMP message: 1 destination unreachable, 4 parameter problem, 131 traceroute reply. 203, the
    /// protocol number of BFD, for a BFD control packet.
    pub kind: u8,
    /// The code, whose meaning depends on the type.
    pub code: u8,
    /// Of a parameter problem, where the wrong field begins, in bytes from the datagram's start; of a
    /// traceroute reply, the interface; of a BFD control packet, the link by which the packet came; else 0.
    pub pointer: u16,
}

/// What is done with a packet.
#[derive(Clone, Copy)]
pub enum Decision {
    /// It leaves by a link, where link 0 is the internal network; `to` is absent on an external link,
    /// whose other end is the only one.
    Send { link: u16, to: Option<Underlay> },
    /// It is answered.
    Answer(Problem),
    /// It is dropped.
    Drop(Cause),
}
