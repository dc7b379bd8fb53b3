//! How a packet on a path of one hop leaves, and the bytes that change then.

use crate::decision::Decision;
use crate::underlay::Underlay;
use path_fields::{Hop, set_one_hop_seg_id, set_second_hop};

/// How a packet on a path of one hop leaves.
#[derive(Clone, Copy)]
pub(crate) enum OneHopDeparture {
    /// The AS of its source, by a link, with this identifier of its segment.
    Leaves { link: u16, segment_id: u16 },
    /// Into the AS of its destination, to this address, with this second hop field.
    Enters { to: Underlay, second: Hop },
}

impl OneHopDeparture {
    ghost use Rattle.std.specs.Prelude.{◌≡◌, length};
    ghost use Rattle.scion_packet.specs.OneHop.{IsOneHopPath, OneHopPacket, OneHopPath, one_hop_text};
    ghost use Rattle.process_packet.specs.OneHopTable.{one_hop_decision_of};
    ghost use Rattle.process_packet.specs.OneHopView.{left_path, sent_so};

    /// Writes what changes into the path that the bytes spell: two bytes, or twelve.
    pub(crate) fn write(&self, path: &mut [u8])
        requires whole { length path.old ≡ 32 }
        ensures { (p : OneHopPath) → IsOneHopPath p → path.old ≡ one_hop_text p → path.new ≡ one_hop_text (left_path self.now p) }
    {
        match self {
            OneHopDeparture::Leaves { segment_id, .. } => set_one_hop_seg_id(path, *segment_id),
            OneHopDeparture::Enters { second, .. } => set_second_hop(path, second),
        }
    }

    /// The decision that it is.
    pub(crate) fn decision(&self) -> Decision
        ensures { (p : OneHopPacket) → result ≡ one_hop_decision_of (sent_so self.now p) }
    {
        match self {
            OneHopDeparture::Leaves { link, .. } => Decision::Send {
                link: *link,
                to: None,
            },
            OneHopDeparture::Enters { to, .. } => Decision::Send {
                link: 0,
                to: Some(*to),
            },
        }
    }
}
