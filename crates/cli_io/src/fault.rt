//! Why an engine stops before the end of its input.
ghost use Rattle.std.specs.Prelude.{◌≡◌};
ghost use Rattle.cli_io.specs.declared.fault.LinesFault.TheVariants.{Memory};

use std::alloc::{AllocError, AllocFailed};
use thiserror::Error;

/// Why an engine stopped before the end of its input.
#[derive(Clone, Copy, Debug, PartialEq, Eq, Error)]
pub enum LinesFault {
    /// The line with this number, counted from 1, is none of the format.
    #[error("line {0}")]
    Line(u64),
    /// The reader failed.
    #[error("input")]
    Input,
    /// The writer failed.
    #[error("output")]
    Output,
    /// No memory was left for the engine itself.
    #[error("memory")]
    Memory,
}

impl From<AllocError> for LinesFault {
    ghost from_gives = { λ _ e. e ≡ Memory };

    fn from(_error: AllocError) -> LinesFault {
        LinesFault::Memory
    }
}

impl<T: Drop> From<AllocFailed<T>> for LinesFault {
    ghost from_gives = { λ _ e. e ≡ Memory };

    fn from(_error: AllocFailed<T>) -> LinesFault {
        LinesFault::Memory
    }
}
