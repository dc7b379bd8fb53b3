//! The workers for datagrams from link 1, with ends of new pipes.

ghost use Rattle.std.specs.Prelude.{◌≡◌, ◌<◌, ◌≤◌, Some, [], length};
ghost use Rattle.std.specs.Arc.{arc_value};
ghost use Rattle.packet_ledger.specs.Share.{AreNew, IsNew};
ghost use Rattle.worker_order.specs.Heard.{ToldNothing};
ghost use Rattle.router_rules.specs.Links.{link_count};
ghost use Rattle.stages_tests.specs.NewEnds.{IsFresh};
ghost use Rattle.stages_tests.specs.NewBands.{IsNewBand};

use crate::ends::{next_outlet, next_share, pipe_of, pipe_of_one};
use crate::new_ends::next_producer;
use crate::open_gate::Open;
use crate::run::{Sizes, Workers};
use crate::seats::{Seat, new_returns, new_seat};
use packet_ledger::Share;
use router_rules::{LinkIndex, Shared};
use ruled_pipe::{Consumer, Producer};
use std::alloc::Global;
use std::process::Abort;
use std::sync::atomic::AtomicU64;
use std::sync::{Arc, Wait};
use worker_forwarder::{Band, Forwarder};
use worker_parts::{
    Buffer, EgressPacket, Inlet, Outlet, Packet, RunBrand, Sink, SlowPathRequest, Source,
};
use worker_processor::{Processor, SlowPath};
use worker_receiver::Receiver;

// How many free buffers fit.
const BUFFERS: usize = 256;

fn share_of<R: Abort>(rt: &R, shared: &Arc<Shared, Global>) -> Arc<Shared, Global>
    ensures { arc_value result ≡ arc_value shared.now }
{
    Arc::try_clone(shared).expect(rt, "memory")
}

// Link 1's receiver.
fn receiver<N: RunBrand, S: Source + Drop, R: Abort>(
    rt: &R,
    alloc: Global,
    shared: &Arc<Shared, Global>,
    source: S,
    free: Consumer<Buffer>,
    processor: Outlet<Packet<N>>,
    share: Share<N>,
) -> Receiver<N, S>
    requires config { N.config ≡ Some (arc_value shared.now).config }
    requires small { (link_count (arc_value shared.now).config ≡ 4) × ((arc_value shared.now).config.processors ≡ 1) }
    requires free { free.looks ≡ [] }
    requires processor { IsFresh processor }
    requires share { IsNew share }
    requires untold { ToldNothing (S.told source) }
{
    let shared = share_of(rt, shared);
    let stop = Arc::new(alloc, AtomicU64::new(0)).expect(rt, "memory");
    let first = Buffer::new(alloc).expect(rt, "memory");
    let processors = Vec::from_array(alloc, [processor]).expect(rt, "memory");
    Receiver::new(
        shared,
        stop,
        LinkIndex::of(1),
        source,
        first,
        free,
        processors,
        share,
    )
}

fn processor<N: RunBrand, R: Abort>(
    rt: &R,
    alloc: Global,
    shared: &Arc<Shared, Global>,
    packets: Inlet<Packet<N>>,
    slow: Outlet<SlowPathRequest<N>>,
    seat: Seat<N>,
) -> Processor<N, Open>
    requires config { N.config ≡ Some (arc_value shared.now).config }
    requires small { link_count (arc_value shared.now).config ≡ 4 }
    requires packets { packets.taken ≡ [] }
    requires slow { IsFresh slow }
{
    let shared = share_of(rt, shared);
    let gate = Arc::new(alloc, Open).expect(rt, "memory");
    let Seat { links, free, share } = seat;
    Processor::new(shared, 0, gate, packets, links, slow, free, share)
}

fn slow_path<N: RunBrand, R: Abort>(
    rt: &R,
    shared: &Arc<Shared, Global>,
    requests: Inlet<SlowPathRequest<N>>,
    seat: Seat<N>,
) -> SlowPath<N>
    requires config { N.config ≡ Some (arc_value shared.now).config }
    requires small { link_count (arc_value shared.now).config ≡ 4 }
    requires requests { requests.taken ≡ [] }
{
    let shared = share_of(rt, shared);
    let Seat { links, free, share } = seat;
    SlowPath::new(shared, requests, links, free, share)
}

fn forwarder<N: RunBrand, K: Sink + Drop, R: Abort>(
    rt: &R,
    alloc: Global,
    shared: &Arc<Shared, Global>,
    link: u16,
    sink: K,
    low: Band<N>,
    high: Band<N>,
    one: Producer<Buffer>,
    share: Share<N>,
) -> Forwarder<N, K>
    requires config { N.config ≡ Some (arc_value shared.now).config }
    requires small { link_count (arc_value shared.now).config ≡ 4 }
    requires bands { IsNewBand low × IsNewBand high }
    requires share { IsNew share }
    requires untold { ToldNothing (K.told sink) }
{
    let shared = share_of(rt, shared);
    let free = new_returns(rt, alloc, one);
    Forwarder::new(shared, LinkIndex::of(link), low, high, sink, free, share)
}

fn fill<R: Abort + Wait>(rt: &R, alloc: Global, stock: Producer<Buffer>, buffers: usize) {
    let mut stock = stock;
    for _ in 0..buffers {
        let _ = stock.offer(rt, Buffer::new(alloc).expect(rt, "memory"));
    }
}

/// The workers over these devices, whose forwarder is of a link, with as many free buffers beside the receiver's and
/// entries in each pipe as said.
pub fn start<N: RunBrand, S: Source + Drop, K: Sink + Drop, R: Abort + Wait>(
    rt: &R,
    alloc: Global,
    shared: &Arc<Shared, Global>,
    source: S,
    sink: K,
    sizes: Sizes,
    shares: Vec<Share<N>>,
) -> Workers<N, S, K>
    requires config { N.config ≡ Some (arc_value shared.now).config }
    requires small { (link_count (arc_value shared.now).config ≡ 4) × ((arc_value shared.now).config.processors ≡ 1) }
    requires capacity { (0 < sizes.capacity) × (sizes.capacity ≤ 65536) }
    requires untold { ToldNothing (S.told source) × ToldNothing (K.told sink) }
    requires shares { AreNew 0 shares.items × (length shares.items ≡ 4) }
{
    let mut shares = shares;
    let (mut frees, free) = pipe_of::<Buffer, R>(rt, alloc, BUFFERS, 4);
    fill(rt, alloc, next_producer(&mut frees), sizes.buffers);
    let (mut lows, low) = pipe_of::<EgressPacket<N>, R>(rt, alloc, sizes.capacity, 3);
    let (mut highs, high) = pipe_of::<EgressPacket<N>, R>(rt, alloc, sizes.capacity, 2);
    let (outlet, packets) = pipe_of_one(rt, alloc, sizes.capacity);
    let (slow, requests) = pipe_of_one(rt, alloc, sizes.capacity);
    let share = next_share(&mut shares);
    let receiver = receiver(rt, alloc, shared, source, free, outlet, share);
    let share = next_share(&mut shares);
    let one = next_producer(&mut frees);
    let ends = (next_outlet(&mut lows), next_outlet(&mut highs));
    let seat = new_seat(rt, alloc, sizes.link, ends.0, ends.1, one, share);
    let processor = processor(rt, alloc, shared, packets, slow, seat);
    let share = next_share(&mut shares);
    let one = next_producer(&mut frees);
    let ends = (next_outlet(&mut lows), next_outlet(&mut highs));
    let seat = new_seat(rt, alloc, sizes.link, ends.0, ends.1, one, share);
    let slow_path = slow_path(rt, shared, requests, seat);
    let share = next_share(&mut shares);
    let one = next_producer(&mut frees);
    let low = Band::of(low, 3);
    let high = Band::of(high, 2);
    let forwarder = forwarder(rt, alloc, shared, sizes.link, sink, low, high, one, share);
    Workers {
        receiver,
        processor,
        slow_path,
        forwarder,
        controller: next_producer(&mut lows),
    }
}
