//! What a worker that passes packets on is given.

ghost use Rattle.std.specs.Prelude.{◌≡◌, length};
ghost use Rattle.packet_ledger.specs.Share.{IsNew};
ghost use Rattle.worker_parts.specs.Outlets.{AreFresh};
ghost use Rattle.stages_tests.specs.NewEnds.{IsFresh};

use crate::ends::{next_outlet, pipe_of};
use crate::new_ends::next_producer;
use packet_ledger::Share;
use ruled_pipe::Producer;
use std::alloc::Global;
use std::marker::Model;
use std::process::Abort;
use worker_parts::{Buffer, EgressPacket, Outlet, RunBrand};

/// New ends of the pipes of four links and of their free buffers, and new counts.
#[derive(Drop)]
pub struct Seat<N: RunBrand> {
    pub links: Vec<Outlet<EgressPacket<N>>>,
    pub free: Vec<Producer<Buffer>>,
    pub share: Share<N>,
}

impl<N: RunBrand> Model for Seat<N> {
    ghost use Rattle.std.specs.Prelude.{◌≡◌, length};
    ghost use Rattle.packet_ledger.specs.Share.{IsNew};
    ghost use Rattle.worker_parts.specs.Outlets.{AreFresh};

    ghost Value = { Unit {0} };

    ghost view = { λ s. tt };

    ghost invariant = { λ s. (length s.links.items ≡ 8) × AreFresh s.links.items × (length s.free.items ≡ 4) × IsNew s.share };
}

// Ends of the pipes of four links: but for those of link 1 or 2, of a pipe that nobody empties.
fn new_links<T: Drop, R: Abort>(
    rt: &R,
    alloc: Global,
    link: u16,
    low: Outlet<T>,
    high: Outlet<T>,
) -> Vec<Outlet<T>>
    requires { IsFresh low × IsFresh high }
    ensures { (length result.items ≡ 8) × AreFresh result.items }
{
    let (mut spares, _) = pipe_of::<T, R>(rt, alloc, 1, 6);
    let a = next_outlet(&mut spares);
    let b = next_outlet(&mut spares);
    let c = next_outlet(&mut spares);
    let d = next_outlet(&mut spares);
    let e = next_outlet(&mut spares);
    let f = next_outlet(&mut spares);
    let ends = if link == 1 {
        [a, b, low, high, c, d, e, f]
    } else {
        [a, b, c, d, low, high, e, f]
    };
    Vec::from_array(alloc, ends).expect(rt, "memory")
}

/// Ends of the pipes of four links' free buffers: but for that of link 1, of a pipe that nobody empties.
pub fn new_returns<R: Abort>(rt: &R, alloc: Global, one: Producer<Buffer>) -> Vec<Producer<Buffer>>
    ensures { length result.items ≡ 4 }
{
    let (mut spares, _) = pipe_of::<Buffer, R>(rt, alloc, 1, 3);
    let a = next_producer(&mut spares);
    let b = next_producer(&mut spares);
    let c = next_producer(&mut spares);
    Vec::from_array(alloc, [a, one, b, c]).expect(rt, "memory")
}

/// What a worker is given that feeds the pipes of a link's low and high band.
pub fn new_seat<N: RunBrand, R: Abort>(
    rt: &R,
    alloc: Global,
    link: u16,
    low: Outlet<EgressPacket<N>>,
    high: Outlet<EgressPacket<N>>,
    one: Producer<Buffer>,
    share: Share<N>,
) -> Seat<N>
    requires ends { IsFresh low × IsFresh high }
    requires share { IsNew share }
{
    Seat {
        links: new_links(rt, alloc, link, low, high),
        free: new_returns(rt, alloc, one),
        share,
    }
}
