//! The file into which a configuration is written.

ghost use Rattle.std.specs.Prelude.{true, IfErr};
ghost use Rattle.cli_import.specs.Faults.{IsOfOut};

use cli_faults::{Fault, ImportFile};
use std::fs::{OpenFile, OpenOptions};
use std::io::Write;
use std::os::unix::fs::OpenOptionsExt;
use std::rt::Files;
use std::{fs, io};

/// That its owner alone may read and write a file.
const OWNER_ALONE: u32 = 0o600;

/// Makes a file that isn't there yet, and that its owner alone may read and write from its beginning.
fn new_file<R: Files>(rt: &R, path: &str) -> io::Result<R::File> {
    let mut options = OpenOptions::new();
    options.write(true).create_new(true).mode(OWNER_ALONE);
    options.open(rt, path)
}

/// Writes a text to a new file, which then takes the place of the one at a path, if there is one.
fn fill_and_rename<R: Files>(
    rt: &R,
    mut file: R::File,
    beside: &str,
    path: &str,
    text: &str,
) -> io::Result<()> {
    file.write_all(text.as_bytes())?;
    file.sync_all()?;
    fs::rename(rt, beside, path)
}

/// Whether something is there that isn't a regular file.
fn is_special<R: Files>(rt: &R, path: &str) -> bool {
    match fs::symlink_metadata(rt, path) {
        Ok(metadata) => !metadata.is_file(),
        Err(_) => false,
    }
}

/// Writes a text to the file at a path, which its owner alone may then read and write. Where that
/// fails, what was there is as it was, and nothing of the text is left beside it.
///
/// Until it is whole the file has the path's name with `.part` after it. What has that name already is
/// somebody else's, and a fault.
pub(crate) fn write_out<R: Files + AllocGlobal>(rt: &R, path: &str, text: &str) -> Result<(), Fault>
    ensures { IfErr result (IsOfOut true) }
{
    if is_special(rt, path) {
        return Err(Fault::Special);
    }
    let Ok(beside) = format!(in rt.alloc(); "{path}.part") else {
        return Err(Fault::Memory);
    };
    let file = match new_file(rt, beside.as_str()) {
        Ok(file) => file,
        Err(error) => return Err(Fault::of_new(beside, error)),
    };
    let Err(error) = fill_and_rename(rt, file, beside.as_str(), path, text) else {
        return Ok(());
    };
    let _ = fs::remove_file(rt, beside.as_str());
    Err(Fault::of_import(ImportFile::Out, error))
}
