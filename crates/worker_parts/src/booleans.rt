//! Two truths as one.

ghost use Rattle.std.specs.Prelude.{◌≡◌, ◌&&◌, ◌||◌};

// As calls: an operator would branch, and what follows it would be proved once for each branch.

/// Whether both hold.
pub fn are_both(a: bool, b: bool) -> bool
    ensures { result ≡ (a && b) }
{
    a && b
}

/// Whether one of them holds.
pub fn is_either(a: bool, b: bool) -> bool
    ensures { result ≡ (a || b) }
{
    a || b
}
