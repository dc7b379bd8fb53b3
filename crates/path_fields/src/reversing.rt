//! The way back over a path.

ghost use Rattle.std.specs.Prelude.{◌≡◌, ◌≤◌, length, map, reverse};
ghost use Rattle.scion_packet.specs.Reversed.{cleared_hop, reversed_info, reversed_path};
ghost use Rattle.path_fields.specs.Fields.{hop_field, info_field};
ghost use Rattle.path_fields.specs.Path.{fields_of};

use crate::fields::{Hop, Info};
use crate::lengths::{hop_count, reversed_lengths, segment_of};
use crate::path::Path;
use arrayvec::ArrayVec;

/// The info field of a segment that is travelled the other way, with no reserved bit set.
fn reversed_info(info: &Info) -> Info
    ensures { info_field result ≡ reversed_info (info_field info.now) }
{
    let (segment_id, timestamp) = (info.segment_id, info.timestamp);
    Info {
        reserved_flags: 0,
        along: !info.along,
        reserved: 0,
        segment_id,
        timestamp,
    }
}

/// The hop field with no alert flag and no reserved bit set.
fn cleared_hop(hop: &Hop) -> Hop
    ensures { hop_field result ≡ cleared_hop (hop_field hop.now) }
{
    Hop {
        reserved_flags: 0,
        ingress_alert: false,
        egress_alert: false,
        expiry: hop.expiry,
        construction_ingress: hop.construction_ingress,
        construction_egress: hop.construction_egress,
        mac: hop.mac,
    }
}

fn reversed_infos(infos: &[Info]) -> ArrayVec<Info, 3>
    requires { length infos.now ≤ 3 }
    ensures { map info_field result.items ≡ map reversed_info (reverse (map info_field infos.now)) }
{
    let mut back = ArrayVec::new();
    for k in (0..infos.len()).rev() {
        back.push(reversed_info(&infos[k]));
    }
    back
}

fn reversed_hops(hops: &[Hop]) -> ArrayVec<Hop, 64>
    requires { length hops.now ≤ 64 }
    ensures { map hop_field result.items ≡ map cleared_hop (reverse (map hop_field hops.now)) }
{
    let mut back = ArrayVec::new();
    for k in (0..hops.len()).rev() {
        back.push(cleared_hop(&hops[k]));
    }
    back
}

/// The path travelled back, as an answer to its packet takes it: the last segment first and each
/// segment's last hop first, each segment travelled the other way, and the cursor at the same hop. All
/// alert flags and all reserved bits are clear; the rest of each field is as it was, identifiers and
/// MACs included.
pub fn reversed(path: &Path) -> Path
    ensures { fields_of result ≡ reversed_path (fields_of path.now) }
{
    let lengths = reversed_lengths(&path.lengths);
    let last = hop_count(&path.lengths) - 1;
    let current_hop = last as u8 - path.current_hop;
    Path {
        current_info: segment_of(&lengths, usize::from(current_hop)),
        current_hop,
        reserved: 0,
        lengths,
        infos: reversed_infos(path.infos.as_slice()),
        hops: reversed_hops(path.hops.as_slice()),
    }
}
