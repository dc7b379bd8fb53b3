//! The end of a run, once its workers came back: they are taken apart, and the counts summed up.

ghost use Rattle.std.specs.Prelude.{◌≡◌, ◌≤◌, ℕ, IfSome, [], map, length};
ghost use Rattle.packet_ledger.specs.Amounts.{count_at};
ghost use Rattle.packet_ledger.specs.Share.{AreWithinTheirs, forwarded};
ghost use Rattle.worker_order.specs.Totals.{totals_of};
ghost use Rattle.run_pipes.specs.Piping.{Piping};
ghost use Rattle.run_pipes.specs.Pipes.{HaveAllBack};
ghost use Rattle.run_report.specs.Crew.{crew_in, packet_rows, request_row, egress_rows};
ghost use Rattle.run_report.specs.Parting.{HasEnds, HasKept, IsParted, shares_in};
ghost use Rattle.run_report.specs.Room.{HaveSpace};

use crate::joined::Joined;
use crate::parting::{ForwarderParts, ProcessorParts, ReceiverParts, part_each, part_slow_path};
use crate::space::Space;
use packet_ledger::{Book, Look, Share};
use process_packet::Totals;
use ruled_pipe::Consumer;
use run_pipes::Pipes;
use std::sync::Wait;
use worker_parts::{EgressPacket, Gate, Packet, RunBrand, Sink, SlowPathRequest, Source};

/// What a run came to.
#[derive(Drop)]
pub struct Report<S, K> {
    /// The counts of all workers.
    pub totals: Totals,
    /// How many packets and answers each link's sink took, in ascending order of the links.
    pub sent: Vec<u128>,
    /// The sources, in the order of the links.
    pub sources: Vec<S>,
    /// The sinks, in the order of the links.
    pub sinks: Vec<K>,
}

/// The consumers of workers that came back.
#[derive(Drop)]
pub struct Parted<N: RunBrand> {
    pub packets: Vec<Consumer<Packet<N>>>,
    pub requests: Consumer<SlowPathRequest<N>>,
    pub egress_packets: Vec<Consumer<EgressPacket<N>>>,
}

/// Their shares and devices, and how many each sink took.
#[derive(Drop)]
pub struct Left<N: RunBrand, S, K> {
    pub shares: Vec<Share<N>>,
    pub sent: Vec<u128>,
    pub sources: Vec<S>,
    pub sinks: Vec<K>,
}

/// Takes the workers apart. The pipes take back their ends.
pub fn part_all<N, S, K, G>(
    joined: Joined<N, S, K, G>,
    space: Space<N, S, K>,
    pipes: &mut Pipes<N>,
) -> (Parted<N>, Left<N, S, K>)
where
    N: RunBrand,
    S: Source,
    K: Sink,
    G: Gate + Drop,
    requires { (p : Piping) × (links : ℕ) × (processors : ℕ) × HaveAllBack [] [] [] p pipes.old × HasEnds p links processors (crew_in joined) × HaveSpace links processors space }
    ensures back { (p : Piping) → HaveAllBack [] [] [] p pipes.old → HaveAllBack (packet_rows (crew_in joined)) (request_row (crew_in joined)) (egress_rows (crew_in joined)) p pipes.new }
    ensures takers { IsParted (crew_in joined) result.0.packets.items result.0.requests result.0.egress_packets.items }
    ensures kept { HasKept S.told K.told K.failed (crew_in joined) }
    ensures shares { result.1.shares.items ≡ shares_in (crew_in joined) }
    ensures sent { result.1.sent.items ≡ map (λ f. forwarded f.side.share) joined.forwarders.items }
    ensures sources { result.1.sources.items ≡ map (λ r. r.source) joined.receivers.items }
    ensures sinks { result.1.sinks.items ≡ map (λ f. f.side.sink) joined.forwarders.items }
{
    let Joined {
        receivers,
        processors,
        slow,
        forwarders,
        shutters,
    } = joined;
    let Space {
        packets,
        egress_packets,
        shares,
        sent,
        sources,
        sinks,
    } = space;
    let mut front = ReceiverParts { sources, shares };
    part_each(receivers, pipes, &mut front);
    let mut middle = ProcessorParts {
        takers: packets,
        shares: front.shares,
    };
    part_each(processors, pipes, &mut middle);
    let rest = part_slow_path(slow, shutters, &mut pipes.egress_packets, middle.shares);
    let mut rear = ForwarderParts {
        takers: egress_packets,
        sinks,
        sent,
        shares: rest.shares,
    };
    part_each(forwarders, pipes, &mut rear);
    let takers = Parted {
        packets: middle.takers,
        requests: rest.requests,
        egress_packets: rear.takers,
    };
    let left = Left {
        shares: rear.shares,
        sent: rear.sent,
        sources: front.sources,
        sinks: rear.sinks,
    };
    (takers, left)
}

// The totals of a book whose shares are all these. No count that a look saw is above them, and no row above its share's.
fn close<N: RunBrand, R: Wait>(
    rt: &R,
    book: &Book<N>,
    shares: Vec<Share<N>>,
    look: Option<Look<N>>,
) -> Totals
    requires { length shares.items ≡ N.workers }
    ensures totals { result ≡ totals_of shares.items }
    ensures seen { IfSome look (λ l. (i : ℕ) → count_at i l.totals ≤ count_at i result) }
    ensures rows { IfSome look (λ l. AreWithinTheirs shares.items l) }
{
    match look {
        Some(look) => {
            let mut look = look;
            book.close_after(rt, shares, &mut look)
        }
        None => book.close(rt, shares),
    }
}

/// The report of what is left, with the counts of all shares of the book summed up. They are no
/// less than a look at the book saw of them while the router ran, and neither is what each share posted.
pub fn report_of<N: RunBrand, S, K, R: Wait>(
    rt: &R,
    book: &Book<N>,
    left: Left<N, S, K>,
    look: Option<Look<N>>,
) -> Report<S, K>
    requires { length left.shares.items ≡ N.workers }
    ensures totals { result.totals ≡ totals_of left.shares.items }
    ensures seen { IfSome look (λ l. (i : ℕ) → count_at i l.totals ≤ count_at i result.totals) }
    ensures rows { IfSome look (λ l. AreWithinTheirs left.shares.items l) }
    ensures sent { result.sent.items ≡ left.sent.items }
    ensures sources { result.sources.items ≡ left.sources.items }
    ensures sinks { result.sinks.items ≡ left.sinks.items }
{
    let Left {
        shares,
        sent,
        sources,
        sinks,
    } = left;
    let totals = close(rt, book, shares, look);
    Report {
        totals,
        sent,
        sources,
        sinks,
    }
}
