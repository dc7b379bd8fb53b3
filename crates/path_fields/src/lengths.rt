//! What the three segment lengths of a path say.

ghost use Rattle.std.specs.Prelude.{◌≡◌, ◌+◌, ◌<◌, ◌≤◌, slice_index};
ghost use Rattle.scion_packet.specs.Lengths.{are_lengths, first_hop, hop_count, segment_count, segment_of};
ghost use Rattle.path_fields.specs.Reversed.{reversed_lengths};

/// Whether a path may have these segment lengths: at least one hop, only zeros after a zero length,
/// and at most 64 hops.
pub(crate) fn are_lengths(lengths: &[u8; 3]) -> bool
    ensures { result ≡ are_lengths lengths.now }
{
    lengths[0] >= 1 && (lengths[1] >= 1 || lengths[2] == 0) && hop_count(lengths) <= 64
}

/// How many segments are used.
pub(crate) fn segment_count(lengths: &[u8; 3]) -> usize
    ensures count { result ≡ segment_count lengths.now }
    ensures some { 1 ≤ result }
    ensures few { result ≤ 3 }
{
    if lengths[1] == 0 {
        1
    } else if lengths[2] == 0 {
        2
    } else {
        3
    }
}

/// How many hops there are.
pub(crate) fn hop_count(lengths: &[u8; 3]) -> usize
    ensures { result ≡ hop_count lengths.now }
{
    usize::from(lengths[0]) + usize::from(lengths[1]) + usize::from(lengths[2])
}

/// The segment in which a hop lies.
pub(crate) fn segment_of(lengths: &[u8; 3], hop: usize) -> u8
    ensures segment { result ≡ segment_of lengths.now hop }
    ensures few { result < 3 }
{
    if hop < usize::from(lengths[0]) {
        0
    } else if hop < usize::from(lengths[0]) + usize::from(lengths[1]) {
        1
    } else {
        2
    }
}

/// The number of the first hop of a segment.
pub(crate) fn first_hop(lengths: &[u8; 3], segment: usize) -> usize
    ensures { result ≡ first_hop lengths.now segment }
{
    match segment {
        0 => 0,
        1 => usize::from(lengths[0]),
        _ => usize::from(lengths[0]) + usize::from(lengths[1]),
    }
}

/// The number after that of the last hop of a segment.
pub(crate) fn end_of(lengths: &[u8; 3], segment: u8) -> usize
    ensures { segment < 3 → result ≡ first_hop lengths.now segment + slice_index lengths.now segment }
{
    match segment {
        0 => usize::from(lengths[0]),
        1 => usize::from(lengths[0]) + usize::from(lengths[1]),
        _ => hop_count(lengths),
    }
}

/// The lengths of the same path travelled back: those that are used, in reverse order.
pub(crate) fn reversed_lengths(lengths: &[u8; 3]) -> [u8; 3]
    ensures { result ≡ reversed_lengths lengths.now }
{
    match segment_count(lengths) {
        1 => [lengths[0], 0, 0],
        2 => [lengths[1], lengths[0], 0],
        _ => [lengths[2], lengths[1], lengths[0]],
    }
}
