//! The engine of `router run`.
ghost use Rattle.std.specs.Prelude.{◌≡◌, ℕ, take, IfErr, IfSome, OnOk};
ghost use Rattle.std.specs.Io.KnownBytes.{Appends};
ghost use Rattle.cli_io.specs.Lines.{lines_of};
ghost use Rattle.cli_io.specs.Told.{IsCut};
ghost use Rattle.cli_io.specs.Lines.{lines_in};
ghost use Rattle.cli_run.specs.Closing.{ready_text};
ghost use Rattle.cli_run.specs.Command.{command_of};
ghost use Rattle.cli_run.specs.RunReport.{run_report};
ghost use Rattle.cli_run.specs.Run.{LedIn, LedReady, Obeyed, Ran};

use crate::closing::{push_closing, push_no_command, push_ready};
use crate::command::{Command, read_command};
use crate::control::{Control, Figures};
use crate::run_report::push_run_report;
use cli_io::{LinesFault, next_line, send};
use std::alloc::{AllocError, Global};
use std::io::{BufRead, Write};

/// Writes that the router runs.
fn write_ready<W: Write>(alloc: Global, writer: &mut W) -> Result<(), LinesFault>
    ensures ok { OnOk result (Appends (W.contents writer.old) (W.contents writer.new) ready_text) }
    ensures begins { (k : ℕ) × Appends (W.contents writer.old) (W.contents writer.new) (take k ready_text) }
    ensures fault { IfErr result (λ e. IsCut e) }
{
    let mut text = Vec::new(alloc);
    match push_ready(&mut text) {
        Ok(()) => {}
        Err(_) => return Err(LinesFault::Memory),
    }
    match send(writer, text.as_slice()) {
        Ok(()) => Ok(()),
        Err(_) => Err(LinesFault::Output),
    }
}

/// Does what a line tells, and replaces the text with what is written for it; false where it tells to end.
fn obey<C: Control>(router: &mut C, line: &[u8], text: &mut Vec<u8>) -> Result<bool, AllocError>
    ensures { Obeyed C.closes (command_of line.now) result router.old text.new.items router.new }
{
    text.clear();
    match read_command(line) {
        Some(Command::End) => Ok(false),
        Some(Command::Close(link)) => {
            let closing = router.close_link(link);
            match push_closing(text, closing, link) {
                Ok(()) => Ok(true),
                Err(_) => Err(AllocError),
            }
        }
        None => match push_no_command(text) {
            Ok(()) => Ok(true),
            Err(_) => Err(AllocError),
        },
    }
}

/// Does what the lines tell, one after the other, up to the first that tells to end.
fn lead<C: Control, R: BufRead, W: Write>(
    alloc: Global,
    router: &mut C,
    reader: &mut R,
    writer: &mut W,
) -> Result<(), LinesFault>
    ensures { LedIn C.closes result (lines_in (R.remaining reader.old)) router.old router.new (W.contents writer.old) (W.contents writer.new) }
{
    let mut line = Vec::new(alloc);
    let mut text = Vec::new(alloc);
    for _ in 0..u64::MAX {
        match next_line(reader, &mut line) {
            Ok(true) => {}
            Ok(false) => return Ok(()),
            Err(fault) => return Err(fault),
        }
        match obey(router, line.as_slice(), &mut text) {
            Ok(true) => {}
            Ok(false) => return Ok(()),
            Err(_) => return Err(LinesFault::Memory),
        }
        match send(writer, text.as_slice()) {
            Ok(()) => {}
            Err(_) => return Err(LinesFault::Output),
        }
    }
    Err(LinesFault::Input)
}

/// Writes the report of a router that ended.
fn write_report<W: Write>(
    alloc: Global,
    links: &[u16],
    figures: &Figures,
    writer: &mut W,
) -> Result<(), LinesFault>
    ensures ok { OnOk result (Appends (W.contents writer.old) (W.contents writer.new) (run_report links.now figures.now.sent.items figures.now.totals)) }
    ensures begins { (k : ℕ) × Appends (W.contents writer.old) (W.contents writer.new) (take k (run_report links.now figures.now.sent.items figures.now.totals)) }
    ensures fault { IfErr result (λ e. IsCut e) }
{
    let mut text = Vec::new(alloc);
    match push_run_report(&mut text, links, figures.sent.as_slice(), &figures.totals) {
        Ok(()) => {}
        Err(_) => return Err(LinesFault::Memory),
    }
    match send(writer, text.as_slice()) {
        Ok(()) => Ok(()),
        Err(_) => Err(LinesFault::Output),
    }
}

/// Tells that the router runs, and leads it.
fn run_to_end<C: Control, R: BufRead, W: Write>(
    alloc: Global,
    router: &mut C,
    reader: &mut R,
    writer: &mut W,
) -> Result<(), LinesFault>
    ensures { LedReady C.closes result (lines_in (R.remaining reader.old)) router.old router.new (W.contents writer.old) (W.contents writer.new) }
{
    match write_ready(alloc, writer) {
        Ok(()) => lead(alloc, router, reader, writer),
        Err(fault) => Err(fault),
    }
}

/// Writes `ready`, does what each line tells before it reads the next one, ends the router at the line
/// `end` or where nothing is left to be read, and writes its report: how much each link sent, by these
/// interfaces in ascending order, and the counts.
///
/// Where the reader or the writer fails, or no memory is left, the router is ended all the same, and no
/// report is written.
pub fn run_lines<C: Control, R: BufRead, W: Write>(
    alloc: Global,
    links: &[u16],
    mut router: C,
    reader: &mut R,
    writer: &mut W,
) -> Result<(), LinesFault>
    ensures { IfSome (R.remaining reader.old) (λ input.
        Ran C.closes C.tells links.now router result (lines_of input) (W.contents writer.old) (W.contents writer.new)) }
{
    let led = run_to_end(alloc, &mut router, reader, writer);
    let figures = router.finish();
    match led {
        Ok(()) => write_report(alloc, links, &figures, writer),
        Err(fault) => Err(fault),
    }
}
