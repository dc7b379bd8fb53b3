//! Results side by side.

ghost use Rattle.std.specs.Prelude.{◌≡◌, IfOk, Ok};

use std::alloc::AllocError;

/// Both values, or an error in place of either. A caller that holds neither yet has nothing to drop at the error.
pub fn both<A: Drop, B: Drop>(
    a: Result<A, AllocError>,
    b: Result<B, AllocError>,
) -> Result<(A, B), AllocError>
    ensures { IfOk result (λ r. (a ≡ Ok r.0) × (b ≡ Ok r.1)) }
{
    Ok((a?, b?))
}

/// All three values, or an error in place of any.
pub fn all_three<A: Drop, B: Drop, C: Drop>(
    a: Result<A, AllocError>,
    b: Result<B, AllocError>,
    c: Result<C, AllocError>,
) -> Result<(A, B, C), AllocError>
    ensures { IfOk result (λ r. (a ≡ Ok r.0) × (b ≡ Ok r.1) × (c ≡ Ok r.2)) }
{
    Ok((a?, b?, c?))
}
