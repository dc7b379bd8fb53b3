//! What holds of every path: nothing here runs.

ghost use Rattle.std.specs.Prelude.{◌≡◌, length};
ghost use Rattle.scion_packet.specs.Lengths.{path_len};
ghost use Rattle.scion_packet.specs.Path.{IsPath, path_text};
ghost use Rattle.path_fields.specs.Path.{fields_of};
ghost use Rattle.path_fields.specs.declared.path.Path.{Path};

/// Each field of a path has room for its number, each segment has a hop, and the current hop is one of
/// the path: so what `write_path` writes is the spelling of a lawful path, as long as the lengths of its
/// segments say.
pub fn path_is_lawful()
    ensures path { (p : Path) → IsPath (fields_of p) }
    ensures len { (p : Path) → length (path_text (fields_of p)) ≡ path_len p.lengths }
{}
