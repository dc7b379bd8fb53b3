//! What can be wrong with a path.

use thiserror::Error;

/// What is wrong with a path: the first of its tests that fails.
#[derive(Clone, Copy, Debug, PartialEq, Eq, Error)]
pub enum PathFault {
    /// The bytes are not as many as the path's fields.
    #[error("the header length is not that of the path")]
    Header,
    /// The segment lengths are no path's, or the cursor is at no hop, or at a hop of another segment
    /// than it says; or a path of one hop is travelled against its construction.
    #[error("the path's lengths, cursor or direction are wrong")]
    Path,
    /// A segment is a peering one.
    #[error("the path has a peering segment")]
    Peering,
}

/// The cursor is at the last hop of the path.
#[derive(Clone, Copy, Debug, PartialEq, Eq, Error)]
#[error("the current hop is the last of the path")]
pub struct PathEnd;

/// The room is too short for the path.
#[derive(Clone, Copy, Debug, PartialEq, Eq, Error)]
#[error("no room for the path")]
pub struct NoRoom;
