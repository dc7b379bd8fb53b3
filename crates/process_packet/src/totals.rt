//! What became of all datagrams.

ghost use Rattle.std.specs.Prelude.{◌≡◌};
ghost use Rattle.process_packet.specs.Totals.{dropped_for};

use crate::cause::{CAUSES, Cause};

/// How many datagrams were received, and what became of them.
#[derive(Clone, Copy, PartialEq, Eq)]
pub struct Totals {
    /// Taken from their link.
    pub received: u128,
    /// Handed on to their link.
    pub sent: u128,
    /// Answered, with the answer handed to its link.
    pub answered: u128,
    /// Dropped, for each cause in the order of the causes' numbers.
    pub dropped: [u128; CAUSES],
}

impl Totals {
    /// How many were dropped for a cause.
    pub fn dropped_for(&self, cause: Cause) -> u128
        ensures { result ≡ dropped_for self.now cause }
    {
        self.dropped[usize::from(cause.number()) - 1]
    }
}
