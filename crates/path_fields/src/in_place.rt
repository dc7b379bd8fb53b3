//! One field of a path set where it lies; nothing else of the path changes.

ghost use Rattle.std.specs.Prelude.{◌≡◌, ℕ, ◌+◌, ◌*◌, ◌<◌, ◌≤◌, [], ◌∷◌, length};
ghost use Rattle.field_rows.specs.Place.{Puts};
ghost use Rattle.field_rows.specs.Row.{field, row};
ghost use Rattle.scion_packet.specs.Lengths.{info_place};
ghost use Rattle.scion_packet.specs.Path.{PathFields, Place, cursor_row, hop_number, path_text};
ghost use Rattle.path_fields.specs.InPlace.{with_segment_id};

use field_rows::{put_u8, put_u16};

/// Sets the cursor of the path that the bytes spell: the segment of the current hop (CurrINF), and the
/// number of the current hop (CurrHF). One byte changes.
pub fn set_cursor(path: &mut [u8], current_info: u8, current_hop: u8)
    requires room { 1 ≤ length path.old }
    requires info { current_info < 4 }
    requires hop { current_hop < 64 }
    ensures byte { Puts path.old path.new 0 (row (cursor_row current_info current_hop)) }
    ensures moved { (p : PathFields) (at : Place) → path.old ≡ path_text p → current_info ≡ at.segment → current_hop ≡ hop_number p.segments at
        → path.new ≡ path_text (record p { place = at }) }
{
    put_u8(path, 0, current_info * 64 + current_hop);
}

/// Sets the identifier of a segment (SegID), counted from 0, of the path that the bytes spell. Two bytes
/// change.
pub fn set_seg_id(path: &mut [u8], segment: usize, segment_id: u16)
    requires few { segment < 3 }
    requires room { info_place segment + 8 ≤ length path.old }
    ensures bytes { Puts path.old path.new (info_place segment + 2) (row (field 16 segment_id ∷ [])) }
    ensures changed { (p : PathFields) → path.old ≡ path_text p → segment < length p.segments
        → path.new ≡ path_text (record p { segments = with_segment_id p.segments segment segment_id }) }
{
    put_u16(path, 4 + 8 * segment + 2, segment_id);
}
