//! The engine of `router route`: answers line by line what it reads.
ghost use Rattle.std.specs.Prelude.{IfSome};
ghost use Rattle.cli_route.specs.Answers.{answer_to};
ghost use Rattle.cli_route.specs.Route.{Wrote};

use crate::answers::answer_line;
use cli_io::{ArrivalContext, LinesFault, next_line, send};
use process_packet::Config;
use std::alloc::Global;
use std::io::{BufRead, Write};

/// Answers each datagram that is read as a line of hex, which arrived so, by a line of its own, before it
/// reads the next one.
///
/// It stops at a line that is no hex, at a failure of the reader or the writer, and where no
/// memory is left; the answers to the lines before then stay written.
pub fn route_lines<R: BufRead, W: Write>(
    alloc: Global,
    config: &Config,
    arriving: &ArrivalContext,
    reader: &mut R,
    writer: &mut W,
) -> Result<(), LinesFault>
    ensures { IfSome (R.remaining reader.old) (λ input.
        Wrote (answer_to config.now arriving.now) result input (W.contents writer.old) (W.contents writer.new)) }
{
    let mut line = Vec::new(alloc);
    let mut bytes = Vec::new(alloc);
    let mut text = Vec::new(alloc);
    for number in 1..u64::MAX {
        match next_line(reader, &mut line) {
            Ok(true) => {}
            Ok(false) => return Ok(()),
            Err(fault) => return Err(fault),
        }
        match answer_line(config, arriving, line.as_slice(), &mut bytes, &mut text) {
            Ok(true) => {}
            Ok(false) => return Err(LinesFault::Line(number)),
            Err(_) => return Err(LinesFault::Memory),
        }
        match send(writer, text.as_slice()) {
            Ok(()) => {}
            Err(_) => return Err(LinesFault::Output),
        }
    }
    Err(LinesFault::Input)
}
