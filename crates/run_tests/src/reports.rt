//! What a run reports, beside what is wanted.

ghost use Rattle.std.specs.Prelude.{◌≡◌, length, true};

use router_run::Report;
#[cfg(test)]
use stages_tests::{FULL_LINK, FULL_PROCESSOR, FULL_SLOW_PATH, NO_BUFFER, NOTHING};

/// Whether these are the counts of what each link's sink took, and each link has its devices back.
pub fn sent_by<S, K>(report: &Report<S, K>, counts: &[u128]) -> bool
    ensures sent { result ≡ true → report.now.sent.items ≡ counts.now }
    ensures sources { result ≡ true → length report.now.sources.items ≡ length counts.now }
    ensures sinks { result ≡ true → length report.now.sinks.items ≡ length counts.now }
{
    report.sent.as_slice() == counts
        && report.sources.len() == counts.len()
        && report.sinks.len() == counts.len()
}

/// Whether a run counted this, and the links' sinks took so many.
#[cfg(test)]
pub fn tells<S, K>(
    report: &Report<S, K>,
    totals: &process_packet::Totals,
    counts: &[u128],
) -> bool {
    report.totals == *totals && sent_by(report, counts)
}

/// Whether so many were received, and each was sent or answered, or dropped at a full pipe or for want of a buffer.
#[cfg(test)]
pub fn adds_up(totals: &process_packet::Totals, received: u128) -> bool {
    let processor = totals.dropped[FULL_PROCESSOR];
    let link = totals.dropped[FULL_LINK];
    let slow = totals.dropped[FULL_SLOW_PATH];
    let buffer = totals.dropped[NO_BUFFER];
    let mut wanted = NOTHING;
    wanted.received = received;
    wanted.sent = totals.sent;
    wanted.answered = totals.answered;
    wanted.dropped[FULL_PROCESSOR] = processor;
    wanted.dropped[FULL_LINK] = link;
    wanted.dropped[FULL_SLOW_PATH] = slow;
    wanted.dropped[NO_BUFFER] = buffer;
    let full = processor.wrapping_add(link).wrapping_add(slow);
    let left = totals.sent.wrapping_add(totals.answered);
    *totals == wanted && full.wrapping_add(buffer).wrapping_add(left) == received
}

/// All that was received was sent.
#[cfg(test)]
pub fn all_sent(count: u128) -> process_packet::Totals {
    let mut totals = NOTHING;
    totals.received = count;
    totals.sent = count;
    totals
}
