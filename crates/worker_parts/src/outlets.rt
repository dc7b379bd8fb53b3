//! A worker's ends of many pipes.

ghost use Rattle.std.specs.Prelude.{◌≡◌, ◌<◌, MatchResult, length, true, ◌&&◌};
ghost use Rattle.worker_parts.specs.Outlets.{AreUnended, GaveAt, KeptAt, TriedAt, Trying};

use crate::booleans::are_both;
use crate::outlet::Outlet;
use ruled_pipe::Full;
use std::sync::Wait;

/// Offers an item at the end of a place. One that is refused comes back.
pub fn offer_at<T: Drop, R: Wait>(
    rt: &R,
    ends: &mut Vec<Outlet<T>>,
    at: usize,
    item: T,
) -> Result<(), T>
    requires there { at < length ends.old.items }
    requires unended { AreUnended ends.old.items }
    ensures { MatchResult result (λ _. GaveAt at item ends.old.items ends.new.items) (λ back. (back ≡ item) × KeptAt at item ends.old.items ends.new.items) }
{
    match ends[at].offer(rt, item) {
        Ok(()) => Ok(()),
        Err(Full(item)) => Err(item),
    }
}

/// Tries the end mark that the end of a place owes, and says whether it is there.
pub fn end_at<T: Drop, R: Wait>(rt: &R, ends: &mut Vec<Outlet<T>>, at: usize) -> bool
    requires { at < length ends.old.items }
    ensures { TriedAt at ends.old.items ends.new.items result }
{
    ends[at].end(rt)
}

/// Tries each end mark that is owed, and says whether all are there.
pub fn end_all<T: Drop, R: Wait>(rt: &R, ends: &mut Vec<Outlet<T>>) -> bool
    ensures { Trying (λ j. true) ends.old.items ends.new.items result }
{
    let mut all = true;
    for at in 0..ends.len() {
        let there = end_at(rt, ends, at);
        all = are_both(all, there);
    }
    all
}
