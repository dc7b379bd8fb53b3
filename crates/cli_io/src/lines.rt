//! Lines read from a reader, and texts written to a writer.
ghost use Rattle.std.specs.Prelude.{◌≡◌, ◌≢◌, ◌↔◌, ℕ, IsTrue, take, Some, IfOk, IfErr, IfSome, OnOk, []};
ghost use Rattle.std.specs.Bool.{OnFalse, OnTrue};
ghost use Rattle.std.specs.IoError.{error_kind};
ghost use Rattle.std.specs.declared.io.ErrorKind.TheVariants.{OutOfMemory};
ghost use Rattle.std.specs.Io.BufRead.{drop_through, first_piece};
ghost use Rattle.std.specs.Io.KnownBytes.{Appends};
ghost use Rattle.cli_io.specs.Told.{IsCut};
ghost use Rattle.cli_io.specs.Lines.{Same, left_of, lines_in};
ghost use Rattle.cli_io.specs.declared.fault.LinesFault.TheVariants as faults;

use crate::fault::LinesFault;
use std::io::{self, BufRead, Write};

/// Writes all of the text, or a beginning of it where the writer fails, and hands it on at once.
pub fn send<W: Write>(writer: &mut W, text: &[u8]) -> Result<(), LinesFault>
    ensures ok { OnOk result (Appends (W.contents writer.old) (W.contents writer.new) text.now) }
    ensures begins { (k : ℕ) × Appends (W.contents writer.old) (W.contents writer.new) (take k text.now) }
    ensures err { IfErr result (λ e. e ≡ faults.Output) }
{
    let mut at = 0;
    while at < text.len() {
        match writer.write(&text[at..]) {
            Ok(0) => return Err(LinesFault::Output),
            Ok(count) => at += count,
            Err(_) => return Err(LinesFault::Output),
        }
    }
    match writer.flush() {
        Ok(()) => Ok(()),
        Err(_) => Err(LinesFault::Output),
    }
}

/// Whether an error of a reader that fills a buffer is want of memory for the buffer.
fn is_memory(error: &io::Error) -> bool
    ensures { IsTrue result ↔ (error_kind error.now ≡ OutOfMemory) }
{
    error.kind() == io::ErrorKind::OutOfMemory
}

/// The same, by the reader's own error.
fn read_line<R: BufRead>(reader: &mut R, line: &mut Vec<u8>) -> io::Result<bool>
    ensures end { IfOk result (λ more. OnFalse more (IfSome (R.remaining reader.old) (λ input. input ≡ []))) }
    ensures line { IfOk result (λ more. OnTrue more (IfSome (R.remaining reader.old) (λ input.
        (input ≢ []) × (line.new.items ≡ first_piece 10 input) × (R.remaining reader.new ≡ Some (drop_through 10 input))))) }
{
    line.clear();
    if reader.read_until(b'\n', line)? == 0 {
        return Ok(false);
    }
    if line.last() == Some(&b'\n') {
        line.pop();
    }
    Ok(true)
}

/// Replaces the line with the next one, without its end; false where nothing is left. At `Err` the
/// reader failed, or no memory was left, and the line means nothing.
pub fn next_line<R: BufRead>(reader: &mut R, line: &mut Vec<u8>) -> Result<bool, LinesFault>
    ensures lines { IfOk result (λ more.
        Same (lines_in (R.remaining reader.old)) (left_of more line.new.items (R.remaining reader.new))) }
    ensures fault { IfErr result (λ e. IsCut e) }
{
    match read_line(reader, line) {
        Ok(more) => Ok(more),
        Err(error) if is_memory(&error) => Err(LinesFault::Memory),
        Err(_) => Err(LinesFault::Input),
    }
}
