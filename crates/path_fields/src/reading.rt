//! How a path is read.

ghost use Rattle.std.specs.Prelude.{◌≡◌, ◌+◌, ◌*◌, ◌<◌, ◌≤◌, length, map, None, Some, MatchResult, IfOk};
ghost use Rattle.std.specs.List.{range_with_len};
ghost use Rattle.arrayvec.specs.ArrayVec.{array_vec_len};
ghost use Rattle.scion_packet.specs.Path.{hop_at, info_at, path_fault, path_of};
ghost use Rattle.scion_packet.specs.Lengths.{info_place};
ghost use Rattle.path_fields.specs.Fault.{fault_of};
ghost use Rattle.path_fields.specs.Fields.{hop_field, info_field};
ghost use Rattle.path_fields.specs.Path.{fields_of};

use crate::fault::PathFault;
use crate::fields::{Hop, Info};
use crate::meta::check_path;
use crate::path::Path;
use arrayvec::ArrayVec;
use field_rows::{array_at, u16_at, u32_at};

/// The info field that begins at byte `at` of a path. The peering flag isn't looked at.
pub(crate) fn info_at(path: &[u8], at: usize) -> Info
    requires { at + 8 ≤ length path.now }
    ensures { info_field result ≡ info_at path.now at }
{
    let flags = path[at];
    Info {
        reserved_flags: flags / 4,
        along: flags % 2 == 1,
        reserved: path[at + 1],
        segment_id: u16_at(path, at + 2),
        timestamp: u32_at(path, at + 4),
    }
}

/// The info field of a segment, counted from 0, read from the bytes of a path. The peering flag isn't looked
/// at.
pub fn read_info(path: &[u8], segment: usize) -> Info
    requires { info_place segment + 8 ≤ length path.now }
    ensures { info_field result ≡ info_at path.now (info_place segment) }
{
    info_at(path, 4 + 8 * segment)
}

/// The hop field that begins at byte `at` of a path (`Meta::hop_place`).
pub fn read_hop(path: &[u8], at: usize) -> Hop
    requires { at + 12 ≤ length path.now }
    ensures { hop_field result ≡ hop_at path.now at }
{
    let flags = path[at];
    Hop {
        reserved_flags: flags / 4,
        ingress_alert: flags / 2 % 2 == 1,
        egress_alert: flags % 2 == 1,
        expiry: path[at + 1],
        construction_ingress: u16_at(path, at + 2),
        construction_egress: u16_at(path, at + 4),
        mac: array_at(path, at + 6),
    }
}

fn infos_at(path: &[u8], count: usize) -> ArrayVec<Info, 3>
    requires few { count ≤ 3 }
    requires room { info_place count ≤ length path.now }
    ensures len { array_vec_len result ≡ count }
    ensures fields { map info_field result.items ≡ map (λ k. info_at path.now (info_place k)) (range_with_len 0 count) }
{
    let mut infos = ArrayVec::new();
    for k in 0..count {
        infos.push(read_info(path, k));
    }
    infos
}

fn hops_at(path: &[u8], place: usize, count: usize) -> ArrayVec<Hop, 64>
    requires few { count ≤ 64 }
    requires room { place + 12 * count ≤ length path.now }
    ensures len { array_vec_len result ≡ count }
    ensures fields { map hop_field result.items ≡ map (λ k. hop_at path.now (place + 12 * k)) (range_with_len 0 count) }
{
    let mut hops = ArrayVec::new();
    for k in 0..count {
        hops.push(read_hop(path, place + 12 * k));
    }
    hops
}

/// The path, where all its tests pass (`check_path`); else the fault of the first that fails.
pub fn read_path(bytes: &[u8]) -> Result<Path, PathFault>
    ensures path { IfOk result (λ p. fields_of p ≡ path_of bytes.now) }
    ensures fault { MatchResult result (λ _. path_fault bytes.now ≡ None) (λ e. path_fault bytes.now ≡ Some (fault_of e)) }
{
    let meta = check_path(bytes)?;
    let infos = infos_at(bytes, meta.segment_count());
    let hops = hops_at(bytes, meta.hops_place(), meta.hop_count());
    Ok(Path {
        current_info: meta.current_info,
        current_hop: meta.current_hop,
        reserved: meta.reserved,
        lengths: meta.lengths,
        infos,
        hops,
    })
}
