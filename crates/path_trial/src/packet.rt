//! Datagrams over an up segment and a down segment of two hops each.

use crate::header::{FRONT, IPV4, Told, front_of};
use crate::segment::{Place, Segment, info_of};
use arrayvec::ArrayVec;
use path_fields::{Path, write_path};
use std::alloc::{AllocError, Global};

/// How many bytes a path of two segments of two hops each has.
const PATH: usize = 68;

/// The way of packets between two hosts: up from the first AS to the core AS, and down to the last. Both
/// segments were beaconed from the core AS.
#[derive(Clone, Copy)]
pub struct Way {
    pub from: Place,
    pub to: Place,
    pub up: Segment,
    pub down: Segment,
}

/// What the routers are asked: to carry the packet, or the router of a hop's interface for an answer.
#[derive(Clone, Copy)]
pub enum Asked {
    Nothing,
    /// The router by which the packet leaves the first AS.
    Leaving,
    /// The router by which it enters the core AS.
    EnteringCore,
    /// The router by which it leaves the core AS.
    LeavingCore,
    /// The router by which it enters the last AS.
    Entering,
}

/// The path up the one segment and down the other.
fn path_of(way: &Way, asked: Asked) -> Path {
    let mut infos = ArrayVec::new();
    infos.push(info_of(false, way.up.at_second, way.up.timestamp));
    infos.push(info_of(true, way.down.at_first, way.down.timestamp));
    let mut first = way.up.hops[1];
    first.ingress_alert = asked == Asked::Leaving;
    let mut core_up = way.up.hops[0];
    core_up.egress_alert = asked == Asked::EnteringCore;
    let mut core_down = way.down.hops[0];
    core_down.egress_alert = asked == Asked::LeavingCore;
    let mut last = way.down.hops[1];
    last.ingress_alert = asked == Asked::Entering;
    let mut hops = ArrayVec::new();
    hops.push(first);
    hops.push(core_up);
    hops.push(core_down);
    hops.push(last);
    Path {
        current_info: 0,
        current_hop: 0,
        reserved: 0,
        lengths: [2, 2, 0],
        infos,
        hops,
    }
}

/// A datagram of these parts.
pub fn joined(
    alloc: Global,
    front: &[u8; FRONT],
    path: &[u8],
    payload: &[u8],
) -> Result<Vec<u8>, AllocError> {
    let mut bytes = Vec::new(alloc);
    bytes.extend_from_slice(front)?;
    bytes.extend_from_slice(path)?;
    bytes.extend_from_slice(payload)?;
    Ok(bytes)
}

/// A datagram from the one host to the other, with this payload of a protocol.
pub fn datagram(
    alloc: Global,
    way: &Way,
    asked: Asked,
    protocol: u8,
    payload: &[u8],
) -> Result<Vec<u8>, AllocError> {
    let told = Told {
        words: 26,
        protocol,
        payload: payload.len(),
    };
    let front = front_of(told, IPV4, way.to, way.from);
    let mut path = [0; PATH];
    let _ = write_path(&path_of(way, asked), &mut path);
    joined(alloc, &front, &path, payload)
}
