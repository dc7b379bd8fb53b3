//! What is served.

use std::alloc::AllocError;

/// A page that is written anew for each who asks.
pub trait Page {
    ghost use Rattle.std.specs.Prelude.{◌≡◌, ◌++◌, ℕ, List, OnOk};

    /// What it may write, and what becomes of it.
    ghost shows: { Self → List ℕ → Self → Type 0 };

    /// What it may be later, however often it was written between, or couldn't be.
    ghost becomes: { Self → Self → Type 0 };

    ghost becomes_self: { (x : Self) → becomes x x };

    ghost becomes_then: { (x y z : Self) → becomes x y → becomes y z → becomes x z };

    /// Adds it to a text. At `Err` no memory was left.
    fn push(&mut self, text: &mut Vec<u8>) -> Result<(), AllocError>
        ensures shown { OnOk result ((page : List ℕ) × shows self.old page self.new × (text.new.items ≡ text.old.items ++ page)) }
        ensures becomes { becomes self.old self.new };
}
