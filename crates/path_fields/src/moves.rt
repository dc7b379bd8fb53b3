//! The cursor's move to the next hop.

ghost use Rattle.std.specs.Prelude.{◌≡◌, ◌↔◌, IsErr, OnOk, OnErr, Some, None};
ghost use Rattle.scion_packet.specs.Places.{next};
ghost use Rattle.path_fields.specs.Path.{place, segments};

use crate::fault::PathEnd;
use crate::lengths::{hop_count, segment_of};
use crate::path::Path;

/// Moves the cursor to the next hop. At the path's last hop nothing changes.
pub fn advance(path: &mut Path) -> Result<(), PathEnd>
    ensures moved { OnOk result (next (segments path.old) (place path.old) ≡ Some (place path.new)) }
    ensures end { IsErr result ↔ (next (segments path.old) (place path.old) ≡ None) }
    ensures segments { segments path.new ≡ segments path.old }
    ensures reserved { path.new.reserved ≡ path.old.reserved }
    ensures err { OnErr result (path.new ≡ path.old) }
{
    let next = usize::from(path.current_hop) + 1;
    if next == hop_count(&path.lengths) {
        return Err(PathEnd);
    }
    path.current_info = segment_of(&path.lengths, next);
    path.current_hop += 1;
    Ok(())
}
