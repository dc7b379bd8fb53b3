//! The path meta header.

ghost use Rattle.std.specs.Prelude.{◌≡◌, ◌+◌, ◌*◌, ◌/◌, ◌%◌, ◌<◌, ◌≤◌, ◌^◌, ◌==◌, length, slice_index, IsTrue, None, Some, MatchResult, IfOk, OnOk};
ghost use Rattle.scion_packet.specs.Path.{current_hop, current_info, lengths_of, meta_field, no_peering, path_fault};
ghost use Rattle.scion_packet.specs.Lengths.{are_lengths, hop_count, info_place, path_len, segment_of};
ghost use Rattle.path_fields.specs.Fault.{fault_of};

use crate::fault::PathFault;
use crate::lengths;
use field_rows::u32_at;

/// The path meta header: the cursor and the segment lengths (draft-dekater-scion-dataplane, "Path Meta
/// Header").
#[derive(Clone, Copy, PartialEq, Eq)]
pub struct Meta {
    /// The segment of the current hop (CurrINF), two bits.
    pub current_info: u8,
    /// The number of the current hop among all hops (CurrHF), six bits.
    pub current_hop: u8,
    /// The reserved bits, six of them.
    pub reserved: u8,
    /// How many hops each segment has (SegLen), six bits each; 0 for a segment that isn't used.
    pub lengths: [u8; 3],
    pub ghost current_info_fits: { current_info < 2 ^ 2 },
    pub ghost current_hop_fits: { current_hop < 2 ^ 6 },
    pub ghost reserved_fits: { reserved < 2 ^ 6 },
    pub ghost lengths_fit: { (slice_index lengths 0 < 2 ^ 6) × (slice_index lengths 1 < 2 ^ 6) × (slice_index lengths 2 < 2 ^ 6) },
}

impl Meta {
    ghost use Rattle.scion_packet.specs.Lengths.{first_hop, hop_place, hops_place, segment_count};

    /// How many segments are used.
    pub fn segment_count(&self) -> usize
        ensures count { result ≡ segment_count self.now.lengths }
        ensures some { 1 ≤ result }
        ensures few { result ≤ 3 }
    {
        lengths::segment_count(&self.lengths)
    }

    /// How many hops there are.
    pub fn hop_count(&self) -> usize
        ensures { result ≡ hop_count self.now.lengths }
    {
        lengths::hop_count(&self.lengths)
    }

    /// The segment in which a hop lies, by the hop's number: 2 for any number past the first two segments.
    pub fn segment_of(&self, hop: usize) -> u8
        ensures segment { result ≡ segment_of self.now.lengths hop }
        ensures few { result < 3 }
    {
        lengths::segment_of(&self.lengths, hop)
    }

    /// The number of the first hop of a segment.
    pub fn first_hop(&self, segment: usize) -> usize
        ensures { result ≡ first_hop self.now.lengths segment }
    {
        lengths::first_hop(&self.lengths, segment)
    }

    /// Where the hop fields begin in the bytes of the path.
    pub fn hops_place(&self) -> usize
        ensures { result ≡ hops_place self.now.lengths }
    {
        4 + 8 * self.segment_count()
    }

    /// Where a hop field begins in the bytes of the path, by the number of the hop.
    pub fn hop_place(&self, hop: u8) -> usize
        ensures { result ≡ hop_place self.now.lengths hop }
    {
        self.hops_place() + 12 * usize::from(hop)
    }

    /// How many bytes the path has.
    pub fn path_len(&self) -> usize
        ensures { result ≡ path_len self.now.lengths }
    {
        self.hops_place() + 12 * self.hop_count()
    }
}

/// The meta header of a path, from its first four bytes. Nothing is tested: `check_path` does that.
pub fn read_meta(path: &[u8]) -> Meta
    requires { 4 ≤ length path.now }
    ensures info { result.current_info ≡ current_info path.now }
    ensures hop { result.current_hop ≡ current_hop path.now }
    ensures reserved { result.reserved ≡ meta_field path.now 18 6 }
    ensures lengths { result.lengths ≡ lengths_of path.now }
{
    let word = u32_at(path, 0);
    Meta {
        current_info: (word >> 30 & 0x3) as u8,
        current_hop: (word >> 24 & 0x3f) as u8,
        reserved: (word >> 18 & 0x3f) as u8,
        lengths: [
            (word >> 12 & 0x3f) as u8,
            (word >> 6 & 0x3f) as u8,
            (word & 0x3f) as u8,
        ],
    }
}

/// Whether the peering flag is clear in each of the first `count` info fields.
fn no_peering(path: &[u8], count: usize) -> bool
    requires few { count ≤ 3 }
    requires room { info_place count ≤ length path.now }
    ensures { result ≡ no_peering count path.now }
{
    for k in 0..count {
        if path[4 + 8 * k] / 2 % 2 != 0 {
            return false;
        }
    }
    true
}

/// The meta header of a path, where all tests of the path pass; else the fault of the first that
/// fails: the length of the meta header, the segment lengths, the length of the path, that the
/// current hop is one of its hops and lies in the current segment, and that no segment is a peering
/// one. No hop field is looked at, and one byte of each info field.
pub fn check_path(path: &[u8]) -> Result<Meta, PathFault>
    ensures fault { MatchResult result (λ _. path_fault path.now ≡ None) (λ e. path_fault path.now ≡ Some (fault_of e)) }
    ensures info { IfOk result (λ m. m.current_info ≡ current_info path.now) }
    ensures hop { IfOk result (λ m. m.current_hop ≡ current_hop path.now) }
    ensures reserved { IfOk result (λ m. m.reserved ≡ meta_field path.now 18 6) }
    ensures lengths { IfOk result (λ m. m.lengths ≡ lengths_of path.now) }
    // what the tests show
    ensures lawful { IfOk result (λ m. IsTrue (are_lengths m.lengths)) }
    ensures whole { IfOk result (λ m. length path.now ≡ path_len m.lengths) }
    ensures there { IfOk result (λ m. m.current_hop < hop_count m.lengths) }
    ensures its { IfOk result (λ m. m.current_info ≡ segment_of m.lengths m.current_hop) }
{
    if path.len() < 4 {
        return Err(PathFault::Header);
    }
    let meta = read_meta(path);
    if !lengths::are_lengths(&meta.lengths) {
        return Err(PathFault::Path);
    }
    if path.len() != meta.path_len() {
        return Err(PathFault::Header);
    }
    let hop = usize::from(meta.current_hop);
    if hop >= meta.hop_count() {
        return Err(PathFault::Path);
    }
    if meta.current_info != meta.segment_of(hop) {
        return Err(PathFault::Path);
    }
    if !no_peering(path, meta.segment_count()) {
        return Err(PathFault::Peering);
    }
    Ok(meta)
}
