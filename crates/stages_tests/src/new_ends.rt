//! The ends of new pipes.

ghost use Rattle.std.specs.Prelude.{◌≡◌, ◌+◌, ◌<◌, ◌≤◌, [], All, IfOk, length};
ghost use Rattle.stages_tests.specs.NewEnds.{IsNew, IsUntaken};

use ruled_pipe::{Consumer, Pipe, Producer};
use std::alloc::{AllocError, Global};

/// The ends of a new pipe.
pub fn ends_of<T: Drop>(
    alloc: Global,
    capacity: usize,
    producers: usize,
) -> Result<(Vec<Producer<T>>, Consumer<T>), AllocError>
    requires capacity { (0 < capacity) × (capacity ≤ 65536) }
    requires producers { (0 < producers) × (producers ≤ 64) }
    ensures ends { IfOk result (λ r. All IsNew r.0.items) }
    ensures count { IfOk result (λ r. length r.0.items ≡ producers) }
    ensures taker { IfOk result (λ r. IsUntaken producers r.1) }
{
    let (_, ends, taker) = Pipe::<T>::new(alloc, capacity, producers)?;
    Ok((ends, taker))
}

/// The last of a pipe's producers.
pub fn next_producer<T: Drop>(ends: &mut Vec<Producer<T>>) -> Producer<T>
    requires new { All IsNew ends.old.items }
    requires some { 0 < length ends.old.items }
    ensures next { IsNew result }
    ensures rest { All IsNew ends.new.items }
    ensures fewer { length ends.new.items + 1 ≡ length ends.old.items }
{
    match ends.pop() {
        Some(producer) => producer,
        None => unreachable!(),
    }
}
