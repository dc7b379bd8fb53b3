//! How a packet leaves, and the bytes that change then.

ghost use Rattle.std.specs.Prelude.{◌<◌};

use crate::underlay::Underlay;
use path_fields::{set_cursor, set_seg_id};

/// How a packet leaves: by which link, and what changes in its path.
#[derive(Clone, Copy)]
pub(crate) struct Departure {
    pub link: u16,
    pub to: Option<Underlay>,
    /// The segment by which it came, and that segment's new identifier, if any.
    pub entered: usize,
    pub turned: Option<u16>,
    /// The segment by which it leaves, and that segment's new identifier, if any.
    pub left: usize,
    pub chained: Option<u16>,
    /// The cursor with which it leaves: the segment, and the number of the hop.
    pub segment: usize,
    pub number: usize,
    pub ghost entered_fits: { entered < 3 },
    pub ghost left_fits: { left < 3 },
    pub ghost segment_fits: { segment < 3 },
    pub ghost number_fits: { number < 64 },
}

impl Departure {
    ghost use Rattle.std.specs.Prelude.{◌≡◌, ◌+◌, ◌≤◌, length};
    ghost use Rattle.scion_packet.specs.Lengths.{info_place};
    ghost use Rattle.scion_packet.specs.Path.{PathFields, Place, hop_number, path_text};
    ghost use Rattle.process_packet.specs.Departure.{moved_path};
    ghost use Rattle.process_packet.specs.PacketView.{with_id};

    /// Writes a segment's new identifier, if any, into the path that the bytes spell.
    fn write_id(path: &mut [u8], segment: usize, id: Option<u16>)
        requires few { segment < 3 }
        requires room { info_place segment + 8 ≤ length path.old }
        ensures { (p : PathFields) → path.old ≡ path_text p → segment < length p.segments
            → path.new ≡ path_text (record p { segments = with_id id segment p.segments }) }
    {
        if let Some(id) = id {
            set_seg_id(path, segment, id);
        }
    }

    /// Writes what changes into the path that the bytes spell: the cursor, and at most two identifiers.
    pub(crate) fn write(&self, path: &mut [u8])
        requires entered { info_place self.now.entered + 8 ≤ length path.old }
        requires left { info_place self.now.left + 8 ≤ length path.old }
        ensures { (p : PathFields) (at : Place) → path.old ≡ path_text p → self.now.segment ≡ at.segment
            → self.now.number ≡ hop_number p.segments at → self.now.entered < length p.segments → self.now.left < length p.segments
            → path.new ≡ path_text (moved_path self.now at p) }
    {
        set_cursor(path, self.segment as u8, self.number as u8);
        Departure::write_id(path, self.entered, self.turned);
        Departure::write_id(path, self.left, self.chained);
    }
}
