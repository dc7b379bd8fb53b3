//! Segments of two hops, as beacons make them over one link.

ghost use Rattle.std.specs.Prelude.{◌<◌, ◌^◌};

use cmac_core::Cmac;
use hop_check::{beacon, chain};
use path_fields::{Hop, Info};
use std::slice;

/// One end of a link between two ASes, with the key of its AS.
#[derive(Clone, Copy)]
pub struct End<'a> {
    pub key: &'a Cmac,
    pub interface: u16,
}

/// A host of an AS.
#[derive(Clone, Copy)]
pub struct Place {
    pub isd: u16,
    pub autonomous_system: u64,
    pub host: [u8; 4],
    pub ghost autonomous_system_fits: { autonomous_system < 2 ^ 48 },
}

/// A segment that was beaconed from one AS to another: its hop fields in the direction of construction, and
/// the identifiers with which it starts at the first AS and at the second.
#[derive(Clone, Copy)]
pub struct Segment {
    pub hops: [Hop; 2],
    pub at_first: u16,
    pub at_second: u16,
    pub timestamp: u32,
}

/// The hop field of an AS, without its MAC. It is good for six hours.
fn hop_of(ingress: u16, egress: u16) -> Hop {
    Hop {
        reserved_flags: 0,
        ingress_alert: false,
        egress_alert: false,
        expiry: 63,
        construction_ingress: ingress,
        construction_egress: egress,
        mac: [0; 6],
    }
}

/// A hop field that nobody has made yet.
pub fn no_hop() -> Hop {
    hop_of(0, 0)
}

/// The segment over a link from one AS to another.
pub fn segment_over(first: End<'_>, second: End<'_>, at_first: u16, timestamp: u32) -> Segment {
    let mut begin = [hop_of(0, first.interface)];
    beacon(slice::from_ref(first.key), at_first, timestamp, &mut begin);
    let at_second = chain(at_first, &begin[0].mac);
    let mut end = [hop_of(second.interface, 0)];
    beacon(slice::from_ref(second.key), at_second, timestamp, &mut end);
    Segment {
        hops: [begin[0], end[0]],
        at_first,
        at_second,
        timestamp,
    }
}

/// The info field of a segment.
pub fn info_of(along: bool, segment_id: u16, timestamp: u32) -> Info {
    Info {
        reserved_flags: 0,
        along,
        reserved: 0,
        segment_id,
        timestamp,
    }
}
