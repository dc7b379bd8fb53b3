//! What came of a turn.

/// What came of a worker's turn.
#[derive(Clone, Copy)]
pub enum Turn {
    /// It did something.
    Did,
    /// There was nothing that it could do.
    Quiet,
    /// All its end marks are there: it does nothing any more.
    Ended,
}
