//! A worker's own counts.

ghost use Rattle.std.specs.Prelude.{◌≡◌, ◌+◌, ◌-◌, ◌^◌, ◌≤◌, true, MatchBool};
ghost use Rattle.process_packet.specs.Totals.{dropped_for};
ghost use Rattle.packet_ledger.specs.Amounts.{nothing};
ghost use Rattle.packet_ledger.specs.Share.{HasRoom, IsPosted, MayRaise, counting, forwarded, with_answered, with_fate, with_received, with_sent};

use crate::amounts::at_most;
use crate::run_brand::RunBrand;
use crate::tokens::Token;
use process_packet::{Cause, Totals};
use std::marker::{Model, PhantomData};

/// Each count of a share stays at or below this between two posts.
pub const ROOM: u128 = 1 << 100;

/// How many more times each count is known to fit where nothing is counted, and nowhere else.
pub(crate) const ALL_LEFT: u64 = u64::MAX;

/// One worker's counts, the sums of all that it ever posted into the book `N`, and the place of its row there. Contracts
/// see all three.
#[derive(Drop)]
pub struct Share<N: RunBrand> {
    pub(crate) counts: Totals,
    pub(crate) posted: Totals,
    // Each count can be raised by one at least this many times, so that most looks for room need not
    // read each count.
    pub(crate) left: u64,
    // Whether a drop may have been counted since the last post. Few are, and a post without them leaves the many counts
    // of drops alone.
    pub(crate) drops: bool,
    pub(crate) place: usize,
    pub(crate) token: Token,
    pub(crate) of: PhantomData<N>,
}

impl<N: RunBrand> Model for Share<N> {
    ghost use Rattle.std.specs.Prelude.{◌≡◌, ◌-◌, ◌^◌, ◌<◌, [], false, length, replicate};
    ghost use Rattle.crossbeam_utils.specs.Seq.{cell_view};
    ghost use Rattle.process_packet.specs.Cause.{causes};
    ghost use Rattle.packet_ledger.specs.Amounts.{AtMost, nothing};
    ghost use Rattle.packet_ledger.specs.Shown.{counted_at};
    ghost use Rattle.packet_ledger.specs.Tokens.{holder};
    ghost use Rattle.packet_ledger.specs.Share.{Held, Leaves};

    ghost Value = { Held };

    ghost view = { λ s. record { counts = s.counts; posted = s.posted; place = s.place } };

    ghost invariant = { λ s. (s.token.table_id ≡ N.table) × (s.token.me.1 ≡ []) × (cell_view s.token ≡ holder 1 s.posted (counted_at s.place s.posted)) × AtMost (2 ^ 100) s.counts × AtMost (2 ^ 109) s.posted × Leaves s.left s.counts × (s.place < N.workers) × (s.left ≡ 2 ^ 64 - 1 → s.counts ≡ nothing) × (length s.posted.dropped ≡ causes) × (s.drops ≡ false → s.counts.dropped ≡ replicate causes 0) };
}

// What is left after a count was raised by `n`.
fn left_after(left: u64, n: u128) -> u64
    ensures { result ≡ left - n }
{
    if n < u128::from(left) {
        left - n as u64
    } else {
        0
    }
}

impl<N: RunBrand> Share<N> {
    /// Counts `n` more datagrams as received.
    pub fn received(&mut self, n: u128)
        requires { self.old.counts.received + n ≤ 2 ^ 100 }
        ensures { self.new ≡ counting self.old (with_received n self.old.counts) }
    {
        self.counts.received += n;
        self.left = left_after(self.left, n);
    }

    /// Counts one more packet as sent.
    pub fn sent(&mut self)
        requires { self.old.counts.sent + 1 ≤ 2 ^ 100 }
        ensures { self.new ≡ counting self.old (with_sent self.old.counts) }
    {
        self.counts.sent += 1;
        self.left = left_after(self.left, 1);
    }

    /// Counts one more answer as sent.
    pub fn answered(&mut self)
        requires { self.old.counts.answered + 1 ≤ 2 ^ 100 }
        ensures { self.new ≡ counting self.old (with_answered self.old.counts) }
    {
        self.counts.answered += 1;
        self.left = left_after(self.left, 1);
    }

    /// Counts one more packet or answer as dropped for a cause.
    pub fn fate(&mut self, cause: Cause)
        requires { dropped_for self.old.counts cause + 1 ≤ 2 ^ 100 }
        ensures { self.new ≡ counting self.old (with_fate cause self.old.counts) }
    {
        self.counts.dropped[usize::from(cause.number()) - 1] += 1;
        self.drops = true;
        self.left = left_after(self.left, 1);
    }

    /// Whether each count can still be raised.
    pub fn has_room(&self) -> bool
        ensures room { MatchBool result (HasRoom self.now.counts) (HasRoom self.now.counts → ⊥) }
        ensures each { result ≡ true → MayRaise self.now.counts }
    {
        if self.left > 0 {
            return true;
        }
        self.has_room_by_count()
    }

    // The same, read count by count. It is seldom called, and stays out of the way of a turn.
    #[cold]
    #[inline(never)]
    fn has_room_by_count(&self) -> bool
        ensures room { MatchBool result (HasRoom self.now.counts) (HasRoom self.now.counts → ⊥) }
        ensures each { result ≡ true → MayRaise self.now.counts }
    {
        at_most(&self.counts, ROOM - 1)
    }

    /// True only where nothing was counted since it was last posted, so that a post leaves it as it is. Where
    /// it is false there may be nothing to post either.
    pub(crate) fn is_empty(&self) -> bool
        ensures { result ≡ true → (self.now.counts ≡ nothing) × IsPosted self.now self.now }
    {
        self.left == ALL_LEFT
    }

    /// What it counted since it was last posted.
    pub fn counts(&self) -> &Totals
        ensures { result.now ≡ self.now.counts }
    {
        &self.counts
    }

    /// The sums of all that it ever posted.
    pub fn posted(&self) -> &Totals
        ensures { result.now ≡ self.now.posted }
    {
        &self.posted
    }

    /// All that it ever counted as sent or answered.
    pub fn forwarded(&self) -> u128
        ensures { result ≡ forwarded self.now }
    {
        self.posted.sent + self.posted.answered + (self.counts.sent + self.counts.answered)
    }
}
