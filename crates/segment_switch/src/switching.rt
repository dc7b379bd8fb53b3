//! Where a packet changes from one segment to the next.

ghost use Rattle.std.specs.Prelude.{◌≡◌};
ghost use Rattle.path_fields.specs.Path.{fields_of};
ghost use Rattle.segment_switch.specs.Switch.{is_switch};

use path_fields::Path;

/// Whether the packet changes its segment at the current hop: it is the last of its segment, and
/// another segment follows.
pub fn is_switch(path: &Path) -> bool
    ensures { result ≡ is_switch (fields_of path.now) }
{
    path.is_last_of_segment() && path.is_followed()
}
