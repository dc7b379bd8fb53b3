//! What comes after the extension headers of a packet.

/// What a router tells apart of the upper layer.
#[derive(Clone, Copy, PartialEq, Eq)]
pub enum Upper {
    /// An SCMP message of this type.
    Scmp(u8),
    /// Another protocol, or one more extension than may be there.
    Other,
    /// An extension that is not wholly there, or an SCMP message without its first byte.
    Cut,
}

/// Where the upper layer begins.
#[derive(Clone, Copy, PartialEq, Eq)]
pub struct UpperPlace {
    /// The number of its protocol: 17 is UDP, 202 SCMP.
    pub protocol: u8,
    /// Where its first byte is, counted from the end of the header; where none is there, the end of
    /// the datagram.
    pub at: usize,
}
