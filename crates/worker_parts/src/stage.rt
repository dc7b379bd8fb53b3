//! What the loop of a thread asks of a worker, whichever it is.

ghost use Rattle.std.specs.Prelude.{MatchBool};

use crate::turn::Turn;
use std::sync::Wait;

/// A worker that comes back from its thread once it has ended.
pub trait Stage {
    /// What no turn, no wait and no post changes.
    ghost same: { Self → Self → Type 0 };

    /// It took all end marks, and all its own are there.
    ghost has_ended: { Self → Type 0 };
}

/// A worker that makes turns to its end, and posts its counts into a book of the type `B`.
pub trait Turns<B>: Stage {
    ghost use Rattle.std.specs.Prelude.{◌≡◌, Bool};
    ghost use Rattle.worker_parts.specs.declared.turn.Turn.{Turn};
    ghost use Rattle.worker_parts.specs.declared.turn.Turn.TheVariants.{Ended};

    /// Each of its counts can still be raised.
    ghost may_turn: { Self → Type 0 };

    /// What one turn changes, and what it answers.
    ghost has_turned: { Turn → Self → Self → Type 0 };

    /// What it answers to whether only a push into a pipe of its own can end its quiet.
    ghost awaits: { Self → Bool → Type 0 };

    /// What a wait changes, and whether it waited in a way of its own.
    ghost has_waited: { Bool → Self → Self → Type 0 };

    /// What a post changes.
    ghost has_posted: { Self → Self → Type 0 };

    /// It holds no counts, or more than the book has room for.
    ghost is_drained: { Self → Type 0 };

    /// Whether each of its counts can still be raised.
    fn has_room(&self) -> bool
        ensures { MatchBool result (may_turn self.now) (may_turn self.now → ⊥) };

    /// Takes one item, and does with it what the rules say.
    fn turn<R: Wait>(&mut self, rt: &R) -> Turn
        requires { may_turn self.old }
        ensures { has_turned result self.old self.new };

    /// Whether only a push into a pipe of its own can end its quiet. Then it may sleep until there is one.
    fn awaits_push(&self) -> bool
        ensures { awaits self.now result };

    /// Waits until there may be something to do, in a way of its own, and says whether it did. It may
    /// return at any moment.
    fn wait(&mut self) -> bool
        ensures { has_waited result self.old self.new };

    /// Posts its counts into the book, where there is room.
    fn post<R: Wait>(&mut self, rt: &R, book: &B)
        ensures { has_posted self.old self.new };

    ghost same_self: { (x : Self) → Self.same x x };

    ghost same_then: { (x y z : Self) → Self.same x y → Self.same y z → Self.same x z };

    ghost turn_keeps: { (turn : Turn) (x y : Self) → has_turned turn x y → Self.same x y × (turn ≡ Ended → Self.has_ended y) };

    ghost wait_keeps: { (waited : Bool) (x y : Self) → has_waited waited x y → Self.same x y };

    ghost post_keeps: { (x y : Self) → has_posted x y → Self.same x y × (Self.has_ended x → Self.has_ended y) × is_drained y };
}
