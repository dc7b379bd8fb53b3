//! A path, and the cursor's place on it.

ghost use Rattle.std.specs.Prelude.{◌≡◌, ◌<◌, ◌^◌, IsTrue, slice_index};
ghost use Rattle.arrayvec.specs.ArrayVec.{array_vec_len};
ghost use Rattle.scion_packet.specs.Lengths.{are_lengths, hop_count, segment_count, segment_of};

use crate::fields::{Hop, Info};
use crate::lengths;
use arrayvec::ArrayVec;

/// A path of one to three segments and at most 64 hops, and the cursor's place on it
/// (draft-dekater-scion-dataplane, "SCION Path Type"). Its type keeps what the tests of `read_path` show.
#[derive(Drop)]
pub struct Path {
    /// The segment of the current hop (CurrINF).
    pub current_info: u8,
    /// The number of the current hop among all hops (CurrHF).
    pub current_hop: u8,
    /// The reserved bits, kept as they came.
    pub reserved: u8,
    /// How many hops each segment has, 0 after the last segment.
    pub lengths: [u8; 3],
    /// The info fields, one for each segment, in the order of travel.
    pub infos: ArrayVec<Info, 3>,
    /// The hop fields of all segments, in the order of travel.
    pub hops: ArrayVec<Hop, 64>,
    pub ghost reserved_fits: { reserved < 2 ^ 6 },
    pub ghost lengths_are_lawful: { IsTrue (are_lengths lengths) },
    pub ghost lengths_fit: { (slice_index lengths 0 < 2 ^ 6) × (slice_index lengths 1 < 2 ^ 6) × (slice_index lengths 2 < 2 ^ 6) },
    pub ghost has_infos: { array_vec_len infos ≡ segment_count lengths },
    pub ghost has_hops: { array_vec_len hops ≡ hop_count lengths },
    pub ghost current_hop_is_there: { current_hop < hop_count lengths },
    pub ghost current_info_is_its: { current_info ≡ segment_of lengths current_hop },
}

impl Path {
    ghost use Rattle.scion_packet.specs.Places.{is_followed, is_last_of_segment};
    ghost use Rattle.path_fields.specs.Path.{place, segments};

    /// Whether the current hop is the last of its segment.
    pub fn is_last_of_segment(&self) -> bool
        ensures { result ≡ is_last_of_segment (segments self.now) (place self.now) }
    {
        usize::from(self.current_hop) + 1 == lengths::end_of(&self.lengths, self.current_info)
    }

    /// Whether another segment follows the current one.
    pub fn is_followed(&self) -> bool
        ensures { result ≡ is_followed (segments self.now) (place self.now) }
    {
        usize::from(self.current_info) + 1 < lengths::segment_count(&self.lengths)
    }
}
