//! Ends that push marks alone, all of one worker.

ghost use Rattle.std.specs.Prelude.{◌≡◌, ◌<◌, length, true, slice_index_or};
ghost use Rattle.run_ends.specs.Shutting.{AreUnended, ClosesAt, EachEnds, Shutting};

use crate::shutter::Shutter;
use std::sync::Wait;

/// Tries the closing mark of the pipe at a place once, where it is not there yet. Whether it is there now.
pub fn close_at<T: Drop, R: Wait>(rt: &R, shutters: &mut Vec<Shutter<T>>, at: usize) -> bool
    requires there { at < length shutters.old.items }
    requires used { (d : Shutting T) → (slice_index_or shutters.old.items at d).used ≡ true }
    requires unended { AreUnended shutters.old.items }
    ensures { ClosesAt at result shutters.old.items shutters.new.items }
{
    shutters[at].close(rt)
}

/// Tries the end mark of each pipe that is used until it is accepted.
pub fn mark_all<T: Drop, R: Wait>(rt: &R, shutters: &mut Vec<Shutter<T>>)
    requires { AreUnended shutters.old.items }
    ensures { EachEnds shutters.old.items shutters.new.items }
{
    for k in 0..shutters.len() {
        shutters[k].end(rt);
    }
}
