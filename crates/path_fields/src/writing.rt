//! How a path is written.

ghost use Rattle.std.specs.Prelude.{◌≡◌, ◌+◌, ◌*◌, ◌<◌, ◌≤◌, ◌^◌, [], ◌∷◌, ◌↔◌, length, slice_index, IsErr, IfOk, OnOk, OnErr};
ghost use Rattle.std.specs.List.{flat_map};
ghost use Rattle.byteorder.specs.Endian.{big_bytes};
ghost use Rattle.field_rows.specs.Place.{Puts};
ghost use Rattle.field_rows.specs.Row.{field, row, rows};
ghost use Rattle.scion_packet.specs.Lengths.{path_len};
ghost use Rattle.scion_packet.specs.Path.{bit, cursor_row, hop_text, info_table, path_text};
ghost use Rattle.path_fields.specs.Fields.{hop_field, info_field};
ghost use Rattle.path_fields.specs.Path.{fields_of};

use crate::fault::NoRoom;
use crate::fields::{Hop, Info};
use crate::lengths::{hop_count, segment_count};
use crate::path::Path;
use field_rows::{put, put_u8, put_u16, put_u32};

/// Six more bits after those of a word.
fn with_six(word: u32, bits: u8) -> u32
    requires word { word < 2 ^ 26 }
    requires bits { bits < 2 ^ 6 }
    ensures { result ≡ word * 2 ^ 6 + bits }
{
    word << 6 | u32::from(bits)
}

fn write_meta(path: &Path, out: &mut [u8])
    requires { 4 ≤ length out.old }
    ensures { let lengths = path.now.lengths in
        Puts out.old out.new 0 (rows (
        cursor_row path.now.current_info path.now.current_hop
        ∷ (field 6 path.now.reserved ∷ field 6 (slice_index lengths 0) ∷ field 6 (slice_index lengths 1) ∷ field 6 (slice_index lengths 2) ∷ [])
        ∷ [])) }
{
    let cursor = with_six(u32::from(path.current_info), path.current_hop);
    let reserved = with_six(cursor, path.reserved);
    let first = with_six(reserved, path.lengths[0]);
    let second = with_six(first, path.lengths[1]);
    put_u32(out, 0, with_six(second, path.lengths[2]));
}

/// A byte of six reserved flags and two that are named.
fn flags_of(reserved: u8, high: bool, low: bool) -> u8
    requires { reserved < 2 ^ 6 }
    ensures { big_bytes 1 result ≡ row (field 6 reserved ∷ field 1 (bit high) ∷ field 1 (bit low) ∷ []) }
{
    reserved * 4 + u8::from(high) * 2 + u8::from(low)
}

pub(crate) fn write_info(info: &Info, out: &mut [u8], at: usize)
    requires { at + 8 ≤ length out.old }
    ensures { Puts out.old out.new at (rows (info_table (info_field info.now))) }
{
    put_u8(out, at, flags_of(info.reserved_flags, false, info.along));
    put_u8(out, at + 1, info.reserved);
    put_u16(out, at + 2, info.segment_id);
    put_u32(out, at + 4, info.timestamp);
}

pub(crate) fn write_hop(hop: &Hop, out: &mut [u8], at: usize)
    requires { at + 12 ≤ length out.old }
    ensures { Puts out.old out.new at (hop_text (hop_field hop.now)) }
{
    let flags = flags_of(hop.reserved_flags, hop.ingress_alert, hop.egress_alert);
    put_u8(out, at, flags);
    put_u8(out, at + 1, hop.expiry);
    put_u16(out, at + 2, hop.construction_ingress);
    put_u16(out, at + 4, hop.construction_egress);
    put(out, at + 6, &hop.mac);
}

fn write_infos(infos: &[Info], out: &mut [u8], at: usize)
    requires { at + 8 * length infos.now ≤ length out.old }
    ensures { Puts out.old out.new at (flat_map (λ i. rows (info_table (info_field i))) infos.now) }
{
    let mut place = at;
    for info in infos {
        write_info(info, out, place);
        place += 8;
    }
}

fn write_hops(hops: &[Hop], out: &mut [u8], at: usize)
    requires { at + 12 * length hops.now ≤ length out.old }
    ensures { Puts out.old out.new at (flat_map (λ h. hop_text (hop_field h)) hops.now) }
{
    let mut place = at;
    for hop in hops {
        write_hop(hop, out, place);
        place += 12;
    }
}

/// Writes the path at the front, and says how many bytes it is; what lies after it is as it was.
/// Where there is no room for it `NoRoom` is answered, and nothing is written.
pub fn write_path(path: &Path, out: &mut [u8]) -> Result<usize, NoRoom>
    ensures written { OnOk result (Puts out.old out.new 0 (path_text (fields_of path.now))) }
    ensures len { IfOk result (λ n. n ≡ path_len path.now.lengths) }
    ensures no_room { IsErr result ↔ (length out.old < path_len path.now.lengths) }
    ensures err { OnErr result (out.new ≡ out.old) }
{
    let hops_place = 4 + 8 * segment_count(&path.lengths);
    let whole = hops_place + 12 * hop_count(&path.lengths);
    if out.len() < whole {
        return Err(NoRoom);
    }
    write_meta(path, out);
    write_infos(path.infos.as_slice(), out, 4);
    write_hops(path.hops.as_slice(), out, hops_place);
    Ok(whole)
}
