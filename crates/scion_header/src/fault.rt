//! What can be wrong with a header.

use thiserror::Error;

/// What is wrong with a header: the first of its tests that fails.
#[derive(Clone, Copy, Debug, PartialEq, Eq, Error)]
pub enum HeaderFault {
    /// The datagram is shorter than the common header, or than its own header says.
    #[error("the datagram is shorter than its header")]
    Short,
    /// The version is not 0.
    #[error("the version is not 0")]
    Version,
    /// The path type is not the expected one: that of a SCION path, or of a path of one hop.
    #[error("the path type is not the expected one")]
    PathType,
    /// The header is too short to hold its addresses.
    #[error("the header length does not cover the address header")]
    Header,
}

/// The room is too short for both headers.
#[derive(Clone, Copy, Debug, PartialEq, Eq, Error)]
#[error("no room for the common header and the address header")]
pub struct NoRoom;
