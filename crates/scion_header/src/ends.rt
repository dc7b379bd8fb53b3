//! Where the parts of a header end.

/// Where the parts of a datagram's header end, counted in bytes from the datagram's start.
#[derive(Clone, Copy, PartialEq, Eq)]
pub struct HeaderEnds {
    /// Where the addresses end: the path begins there.
    pub addresses: usize,
    /// Where the whole header ends: the payload begins there.
    pub header: usize,
}
