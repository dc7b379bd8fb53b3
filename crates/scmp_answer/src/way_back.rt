//! The path of an answer.

ghost use Rattle.std.specs.Prelude.{◌≡◌, ◌&&◌};
ghost use Rattle.path_fields.specs.Path.{fields_of};
ghost use Rattle.scmp_answer.specs.WayBack.{has_no_way_back, is_external, is_first_of_segment, is_in_later_segment, way_back};

use path_fields::{Path, advance, reversed};

/// Whether the current hop is the first of its segment.
fn is_first_of_segment(path: &Path) -> bool
    ensures { result ≡ is_first_of_segment (fields_of path.now) }
{
    let first_hop = match path.current_info {
        0 => 0,
        1 => path.lengths[0],
        _ => path.lengths[0] + path.lengths[1],
    };
    path.current_hop <= first_hop
}

/// Whether an answer to a packet that came by the link can't be sent back: it came from outside to the
/// first hop of a segment.
pub(crate) fn has_no_way_back(link: u16, path: &Path) -> bool
    ensures { result ≡ has_no_way_back link (fields_of path.now) }
{
    link != 0 && is_first_of_segment(path)
}

/// The path of the answer to a packet that came by the link: its own path travelled back. The cursor
/// is past the current hop where the answer leaves the AS, and where the packet had changed its segment
/// on the way into it.
pub(crate) fn way_back(link: u16, path: &Path) -> Path
    ensures { fields_of result ≡ way_back link (fields_of path.now) }
{
    let mut back = reversed(path);
    if link != 0 || is_first_of_segment(path) && path.current_info != 0 {
        // there is a next hop: the one before the current hop on the path that came
        let _ = advance(&mut back);
    }
    back
}
