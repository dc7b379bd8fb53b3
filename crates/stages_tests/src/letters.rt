//! The letters of a run: one a turn.

ghost use Rattle.std.specs.Prelude.{◌≡◌, true};

use worker_parts::Turn;

/// Whether the turn was as its letter says: a capital where the worker did something, a small letter where
/// it was quiet. No letter says that a worker ended.
pub fn was(turn: Turn, letter: u8) -> bool
    ensures { turn ≡ Turn.Ended → result ≡ true → ⊥ }
{
    match turn {
        Turn::Did => letter.is_ascii_uppercase(),
        Turn::Quiet => letter.is_ascii_lowercase(),
        Turn::Ended => false,
    }
}
