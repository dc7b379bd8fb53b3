//! Why a pair of links is not lawful.

ghost use Rattle.std.specs.Prelude.{◌≡◌};

use thiserror::Error;

/// Why a packet may not leave by a link, from where it came.
#[derive(Clone, Copy, Debug, PartialEq, Eq, Error)]
pub enum PairFault {
    /// It stays on its segment, and the two links don't follow one another on a segment.
    #[error("the links do not follow one another on a segment")]
    StraightOn,
    /// It changes its segment, and two segments don't meet at these links.
    #[error("segments do not meet at these links")]
    ChangeOver,
}

impl PairFault {
    ghost use Rattle.segment_switch.specs.Pairs.{code_of};

    /// The code of the SCMP parameter problem that says so: 48, an invalid path, or 53, an invalid
    /// change of segments (SCMP specification, "Parameter Problem").
    pub fn code(self) -> u8
        ensures { result ≡ code_of self }
    {
        match self {
            PairFault::StraightOn => 48,
            PairFault::ChangeOver => 53,
        }
    }
}
