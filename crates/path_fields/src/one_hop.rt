//! A path of one hop where it lies: an info field and two hop fields, 32 bytes, and no meta header
//! (draft-dekater-scion-dataplane, "One-Hop Path Type").

ghost use Rattle.std.specs.Prelude.{◌≡◌, ◌≤◌, ◌+◌, [], ◌∷◌, length, replicate, None, Some, MatchResult, IfOk};
ghost use Rattle.field_rows.specs.Place.{Puts};
ghost use Rattle.field_rows.specs.Row.{field, row};
ghost use Rattle.scion_packet.specs.OneHop.{IsOneHopPath, OneHopPath, one_hop_path_fault, one_hop_path_of, one_hop_text};
ghost use Rattle.scion_packet.specs.Path.{hop_text};
ghost use Rattle.path_fields.specs.Fault.{fault_of};
ghost use Rattle.path_fields.specs.Fields.{hop_field, info_field};

use crate::fault::PathFault;
use crate::fields::{Hop, Info};
use crate::reading::{info_at, read_hop};
use crate::writing::{write_hop, write_info};
use field_rows::{put, put_u16};

/// Whether all tests of a path of one hop pass; else the fault of the first that fails: that it has 32
/// bytes, that its segment isn't a peering one (P), and that it is travelled in the direction of its
/// construction (C) (draft-dekater-scion-dataplane, "One-Hop Path Type"). No hop field is looked at.
pub fn check_one_hop(path: &[u8]) -> Result<(), PathFault>
    ensures fault { MatchResult result (λ _. one_hop_path_fault path.now ≡ None) (λ e. one_hop_path_fault path.now ≡ Some (fault_of e)) }
    // what the tests show
    ensures whole { IfOk result (λ _. length path.now ≡ 32) }
{
    if path.len() != 32 {
        return Err(PathFault::Header);
    }
    let flags = path[0];
    if flags / 2 % 2 != 0 {
        return Err(PathFault::Peering);
    }
    if flags % 2 != 1 {
        return Err(PathFault::Path);
    }
    Ok(())
}

/// The info field of a path of one hop (draft-dekater-scion-dataplane, "One-Hop Path Type"). The peering
/// flag isn't looked at.
pub fn one_hop_info(path: &[u8]) -> Info
    requires { 32 ≤ length path.now }
    ensures { info_field result ≡ (one_hop_path_of path.now).info }
{
    info_at(path, 0)
}

/// The first hop field of a path of one hop: that of the AS from which the packet comes
/// (draft-dekater-scion-dataplane, "One-Hop Path Type").
pub fn one_hop_first(path: &[u8]) -> Hop
    requires { 32 ≤ length path.now }
    ensures { hop_field result ≡ (one_hop_path_of path.now).first }
{
    read_hop(path, 8)
}

/// Writes a path of one hop, 32 bytes from `at` on: its info field and the hop field of the AS from which the packet
/// comes (draft-dekater-scion-dataplane, "One-Hop Path Type"). The second hop field is of zero bytes, until the
/// next AS writes it.
pub fn write_one_hop(info: &Info, first: &Hop, out: &mut [u8], at: usize)
    requires { at + 32 ≤ length out.old }
    ensures { Puts out.old out.new at (one_hop_text (record { info = info_field info.now; first = hop_field first.now; second = replicate 12 0 })) }
{
    write_info(info, out, at);
    write_hop(first, out, at + 8);
    put(out, at + 20, &[0; 12]);
}

/// Sets the segment's identifier (SegID) of the path of one hop that the bytes spell, as the router does
/// by which the packet leaves its AS (draft-dekater-scion-dataplane, "One-Hop Path Type"). Two bytes
/// change.
pub fn set_one_hop_seg_id(path: &mut [u8], segment_id: u16)
    requires { 32 ≤ length path.old }
    ensures bytes { Puts path.old path.new 2 (row (field 16 segment_id ∷ [])) }
    ensures changed { (p : OneHopPath) → path.old ≡ one_hop_text p → path.new ≡ one_hop_text (record p { info = record p.info { segment_id = segment_id } }) }
{
    put_u16(path, 2, segment_id);
}

/// Writes the second hop field of the path of one hop that the bytes spell, as the router does by which
/// the packet enters the next AS (draft-dekater-scion-dataplane, "One-Hop Path Type"). Twelve bytes
/// change, and what stood there isn't read.
pub fn set_second_hop(path: &mut [u8], hop: &Hop)
    requires { 32 ≤ length path.old }
    ensures bytes { Puts path.old path.new 20 (hop_text (hop_field hop.now)) }
    ensures changed { (p : OneHopPath) → IsOneHopPath p → path.old ≡ one_hop_text p → path.new ≡ one_hop_text (record p { second = hop_text (hop_field hop.now) }) }
{
    write_hop(hop, path, 20);
}
