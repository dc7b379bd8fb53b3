//! What a run counts.

ghost use Rattle.std.specs.Prelude.{◌≡◌, ◌<◌, replicate, slice_set};
ghost use Rattle.process_packet.specs.Cause.{causes};

use process_packet::{CAUSES, Totals};

pub const NOTHING: Totals = Totals {
    received: 0,
    sent: 0,
    answered: 0,
    dropped: [0; CAUSES],
};

/// The places of causes among what was dropped.
pub const FULL_PROCESSOR: usize = 11;

pub const FULL_LINK: usize = 12;

pub const FULL_SLOW_PATH: usize = 13;

pub const CLOSED: usize = 15;

pub const SEND_FAILED: usize = 16;

pub const NO_BUFFER: usize = 17;

/// Counts with these numbers received, sent, and dropped for the cause at a place.
pub fn totals(received: u128, sent: u128, cause: usize, count: u128) -> Totals
    requires { cause < causes }
    ensures received { result.received ≡ received }
    ensures sent { result.sent ≡ sent }
    ensures answered { result.answered ≡ 0 }
    ensures dropped { result.dropped ≡ slice_set (replicate causes 0) cause count }
{
    let mut totals = NOTHING;
    totals.received = received;
    totals.sent = sent;
    totals.dropped[cause] = count;
    totals
}
