//! The ends of new pipes, and new counts. Want of memory ends a test, as everywhere here.

ghost use Rattle.std.specs.Prelude.{◌≡◌, ◌+◌, ◌<◌, ◌≤◌, [], All, length};
ghost use Rattle.packet_ledger.specs.Share.{IsNew as IsNewShare};
ghost use Rattle.stages_tests.specs.NewEnds.{IsFresh, IsNew, IsUntaken};

use crate::new_ends::{ends_of, next_producer};
use packet_ledger::Share;
use ruled_pipe::{Consumer, Producer};
use std::alloc::Global;
use std::process::Abort;
use worker_parts::{Inlet, Outlet, RunBrand};

/// The ends of a new pipe.
pub fn pipe_of<T: Drop, R: Abort>(
    rt: &R,
    alloc: Global,
    capacity: usize,
    producers: usize,
) -> (Vec<Producer<T>>, Consumer<T>)
    requires capacity { (0 < capacity) × (capacity ≤ 65536) }
    requires producers { (0 < producers) × (producers ≤ 64) }
    ensures ends { All IsNew result.0.items × (length result.0.items ≡ producers) }
    ensures taker { IsUntaken producers result.1 }
{
    ends_of::<T>(alloc, capacity, producers).expect(rt, "memory")
}

/// The last of a pipe's producers, as a worker holds it.
pub fn next_outlet<T: Drop>(ends: &mut Vec<Producer<T>>) -> Outlet<T>
    requires new { All IsNew ends.old.items }
    requires some { 0 < length ends.old.items }
    ensures next { IsFresh result }
    ensures rest { All IsNew ends.new.items }
    ensures fewer { length ends.new.items + 1 ≡ length ends.old.items }
{
    Outlet::of(next_producer(ends), None)
}

/// The ends of a new pipe with one producer.
pub fn pipe_of_one<T: Drop, R: Abort>(
    rt: &R,
    alloc: Global,
    capacity: usize,
) -> (Outlet<T>, Inlet<T>)
    requires { (0 < capacity) × (capacity ≤ 65536) }
    ensures { IsFresh result.0 × (result.1.taken ≡ []) }
{
    let (mut ends, taker) = pipe_of::<T, R>(rt, alloc, capacity, 1);
    (next_outlet(&mut ends), Inlet::of(taker, 1))
}

/// The next new counts.
pub fn next_share<N: RunBrand>(shares: &mut Vec<Share<N>>) -> Share<N>
    requires new { All (λ s. IsNewShare s) shares.old.items }
    requires some { 0 < length shares.old.items }
    ensures next { IsNewShare result }
    ensures rest { All (λ s. IsNewShare s) shares.new.items }
    ensures fewer { length shares.new.items + 1 ≡ length shares.old.items }
{
    match shares.pop() {
        Some(share) => share,
        None => unreachable!(),
    }
}
