//! Counts added up, count by count.

ghost use Rattle.std.specs.Prelude.{◌≡◌, ◌+◌, ◌^◌, ◌<◌, ◌≤◌, ℕ, MatchBool, false, replicate, slice_index_or};
ghost use Rattle.process_packet.specs.Cause.{causes};
ghost use Rattle.packet_ledger.specs.Amounts.{AtMost, add_each, nothing, plus};

use process_packet::{CAUSES, Totals};

/// The largest value that a sum of one share's posts reaches, in packets. A post that would pass it moves
/// nothing. The sums of 65,537 such shares stay below 2^126.
pub const MOST: u128 = 1 << 109;

/// No count of any kind.
pub fn none() -> Totals
    ensures { result ≡ nothing }
{
    Totals {
        received: 0,
        sent: 0,
        answered: 0,
        dropped: [0; CAUSES],
    }
}

/// The sums of two counts, kind by kind.
pub fn added(a: &Totals, b: &Totals) -> Totals
    requires a { AtMost (2 ^ 126) a.now }
    requires b { AtMost (2 ^ 126) b.now }
    ensures { result ≡ plus a.now b.now }
{
    Totals {
        received: a.received + b.received,
        sent: a.sent + b.sent,
        answered: a.answered + b.answered,
        dropped: added_each(&a.dropped, &b.dropped),
    }
}

fn added_each(xs: &[u128; CAUSES], ys: &[u128; CAUSES]) -> [u128; CAUSES]
    requires xs { (k : ℕ) → slice_index_or xs.now k 0 ≤ 2 ^ 126 }
    requires ys { (k : ℕ) → slice_index_or ys.now k 0 ≤ 2 ^ 126 }
    ensures { result ≡ add_each xs.now ys.now }
{
    let mut sums = *xs;
    for i in 0..CAUSES {
        sums[i] += ys[i];
    }
    sums
}

// A count to which nothing is added isn't written, so that it stays in the caches of other cores.
fn raise_count(count: &mut u128, n: u128)
    requires { count.old + n < 2 ^ 128 }
    ensures { count.new ≡ count.old + n }
{
    if n > 0 {
        *count += n;
    }
}

/// Adds counts, kind by kind. Without `drops` no drop is among them, and those that are counted aren't read.
pub fn add(counts: &mut Totals, more: &Totals, drops: bool)
    requires counts { AtMost (2 ^ 126) counts.old }
    requires more { AtMost (2 ^ 126) more.now }
    requires drops { drops ≡ false → more.now.dropped ≡ replicate causes 0 }
    ensures { counts.new ≡ plus counts.old more.now }
{
    raise_count(&mut counts.received, more.received);
    raise_count(&mut counts.sent, more.sent);
    raise_count(&mut counts.answered, more.answered);
    if drops {
        let sums = added_each(&counts.dropped, &more.dropped);
        update_each(&mut counts.dropped, &sums);
    }
}

/// Sets all counts to 0. Without `drops` no drop is counted.
pub fn clear(counts: &mut Totals, drops: bool)
    requires { drops ≡ false → counts.old.dropped ≡ replicate causes 0 }
    ensures { counts.new ≡ nothing }
{
    counts.received = 0;
    counts.sent = 0;
    counts.answered = 0;
    if drops {
        counts.dropped = [0; CAUSES];
    }
}

// Sets each count that differs.
fn update_each(counts: &mut [u128; CAUSES], to: &[u128; CAUSES])
    ensures { counts.new ≡ to.now }
{
    for i in 0..CAUSES {
        if counts[i] != to[i] {
            counts[i] = to[i];
        }
    }
}

/// Whether no count is above `most`.
pub fn at_most(counts: &Totals, most: u128) -> bool
    ensures { MatchBool result (AtMost most counts.now) (AtMost most counts.now → ⊥) }
{
    if counts.received > most {
        return false;
    }
    if counts.sent > most {
        return false;
    }
    if counts.answered > most {
        return false;
    }
    for i in 0..CAUSES {
        if counts.dropped[i] > most {
            return false;
        }
    }
    true
}

/// Whether no sum of two counts, kind by kind, is above `MOST`, as none of the first is. Without `drops` no drop is
/// among the second.
pub fn sums_fit(a: &Totals, b: &Totals, drops: bool) -> bool
    requires a { AtMost (2 ^ 109) a.now }
    requires b { AtMost (2 ^ 126) b.now }
    requires drops { drops ≡ false → b.now.dropped ≡ replicate causes 0 }
    ensures { MatchBool result (AtMost (2 ^ 109) (plus a.now b.now)) (AtMost (2 ^ 109) (plus a.now b.now) → ⊥) }
{
    if a.received + b.received > MOST {
        return false;
    }
    if a.sent + b.sent > MOST {
        return false;
    }
    if a.answered + b.answered > MOST {
        return false;
    }
    if drops {
        at_most(&added(a, b), MOST)
    } else {
        true
    }
}
