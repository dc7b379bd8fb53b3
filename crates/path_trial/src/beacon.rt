//! Beacons, from the control service of an AS to that of a neighbour, and the answers to them.

ghost use Rattle.std.specs.Prelude.{◌<◌};

use crate::header::{IPV4, SERVICE, Told, front_of};
use crate::message::UDP;
use crate::packet::joined;
use crate::segment::{Place, Segment, info_of, no_hop};
use arrayvec::ArrayVec;
use path_fields::{Hop, Info, Path, write_path};
use std::alloc::{AllocError, Global};

/// How many bytes a SCION path of a segment of two hops has, and how many of them are its meta header.
const PATH: usize = 36;

const META: usize = 4;

/// The path type of a path of one hop, and where a datagram tells it.
const ONE_HOP: u8 = 2;

const PATH_TYPE_AT: usize = 8;

/// Payloads: a UDP header, from port 31000 to the same, and a word.
const HELLO: &[u8] = b"\x79\x18\x79\x18\x00\x0e\x00\x00beacon";

const REPLY: &[u8] = b"\x79\x18\x79\x18\x00\x0e\x00\x00answer";

/// A beacon over a link, from a host of one AS to the control service of another, which is a host too. The
/// segment is the one that it makes.
#[derive(Clone, Copy)]
pub struct Beacon {
    pub from: Place,
    pub to: Place,
    pub segment: Segment,
}

/// A path of one segment of two hops, with the cursor at one of them.
fn path_bytes(info: Info, hops: [Hop; 2], current_hop: u8) -> [u8; PATH]
    requires { current_hop < 2 }
{
    let mut infos = ArrayVec::new();
    infos.push(info);
    let mut both = ArrayVec::new();
    both.push(hops[0]);
    both.push(hops[1]);
    let path = Path {
        current_info: 0,
        current_hop,
        reserved: 0,
        lengths: [2, 0, 0],
        infos,
        hops: both,
    };
    let mut bytes = [0; PATH];
    let _ = write_path(&path, &mut bytes);
    bytes
}

/// The datagram of a beacon, with this identifier of its segment and this second hop field.
///
/// A path of one hop is a SCION path of one segment of two hops without its meta header. A `Header` is that of a
/// SCION path, so its path type, 1, is written over.
fn on_one_hop(
    alloc: Global,
    beacon: &Beacon,
    segment_id: u16,
    second: Hop,
) -> Result<Vec<u8>, AllocError> {
    let told = Told {
        words: 17,
        protocol: UDP,
        payload: HELLO.len(),
    };
    let mut front = front_of(told, SERVICE, control_service(beacon.to), beacon.from);
    front[PATH_TYPE_AT] = ONE_HOP;
    let info = info_of(true, segment_id, beacon.segment.timestamp);
    let path = path_bytes(info, [beacon.segment.hops[0], second], 0);
    joined(alloc, &front, &path[META..], HELLO)
}

/// The control service of a host's AS, number 2.
fn control_service(place: Place) -> Place {
    Place {
        isd: place.isd,
        autonomous_system: place.autonomous_system,
        host: [0, 2, 0, 0],
    }
}

/// The datagram of an answer, at this hop of its way and with this identifier of the beacon's segment, which it
/// takes against the direction of construction.
fn back(
    alloc: Global,
    beacon: &Beacon,
    segment_id: u16,
    current_hop: u8,
) -> Result<Vec<u8>, AllocError>
    requires { current_hop < 2 }
{
    let told = Told {
        words: 18,
        protocol: UDP,
        payload: REPLY.len(),
    };
    let front = front_of(told, IPV4, beacon.from, beacon.to);
    let info = info_of(false, segment_id, beacon.segment.timestamp);
    let [first, second] = beacon.segment.hops;
    let path = path_bytes(info, [second, first], current_hop);
    joined(alloc, &front, &path, REPLY)
}

/// A datagram as it is sent, and as it is to arrive.
#[derive(Drop)]
pub struct Carried {
    pub sent: Vec<u8>,
    pub wanted: Vec<u8>,
}

impl Beacon {
    /// The beacon: it is sent with the first hop field alone, and arrives with the second one too, and with the
    /// identifier that is chained by the first one's MAC.
    pub fn out(&self, alloc: Global) -> Result<Carried, AllocError> {
        let segment = &self.segment;
        let sent = on_one_hop(alloc, self, segment.at_first, no_hop())?;
        let wanted = on_one_hop(alloc, self, segment.at_second, segment.hops[1])?;
        Ok(Carried { sent, wanted })
    }

    /// The answer, over both hop fields of the beacon that arrived.
    pub fn answer(&self, alloc: Global) -> Result<Carried, AllocError> {
        let segment = &self.segment;
        let sent = back(alloc, self, segment.at_second, 0)?;
        let wanted = back(alloc, self, segment.at_first, 1)?;
        Ok(Carried { sent, wanted })
    }
}
