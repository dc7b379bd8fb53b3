//! The engine of `router replay`: gathers what arrives, makes step after step, and reports.
ghost use Rattle.std.specs.Prelude.{◌≡◌, ℕ, [], take, IfErr, IfOk, IfSome, OnOk};
ghost use Rattle.std.specs.Io.KnownBytes.{Appends};
ghost use Rattle.cli_replay.specs.Gathered.{AreGathered};
ghost use Rattle.cli_replay.specs.Report.{not_now_text, report};
ghost use Rattle.cli_replay.specs.Replay.{Replayed};
ghost use Rattle.cli_replay.specs.ReplayParts.{Acted, IsFront, Ran};
ghost use Rattle.cli_io.specs.Told.{IsCut};
ghost use Rattle.cli_io.specs.Lines.{Same, left_of, lines_in};

use crate::arrive_line::read_arrival;
use crate::gathered::{add_arrival, no_arrivals};
use crate::laws::gathered_begin;
use crate::report::{push_not_now, push_report};
use crate::step_line::read_step;
use cli_io::{LinesFault, next_line, send};
use pipe_model::{StepFault, World};
use process_packet::{Arrival, Config};
use router_rules::links_stand_in_order;
use std::alloc::Global;
use std::io::{BufRead, Write};

/// How far the lines are read.
#[derive(Clone, Copy)]
struct LinesRead {
    /// The number of the line that was read last, or would have been.
    number: u64,
    /// Whether there was one.
    more: bool,
}

/// Gathers what the lines in front tell of, up to the first line that tells of nothing that arrives,
/// which is left as it was read.
fn gather<R: BufRead>(
    alloc: Global,
    config: &Config,
    reader: &mut R,
    line: &mut Vec<u8>,
    lists: &mut Vec<Vec<Arrival>>,
) -> Result<LinesRead, LinesFault>
    requires { AreGathered config.now [] lists.old.items }
    ensures front { IfOk result (λ front. IsFront config.now (lines_in (R.remaining reader.old))
        (left_of front.more line.new.items (R.remaining reader.new)) front.number lists.new.items) }
    ensures fault { IfErr result (λ e. IsCut e) }
{
    links_stand_in_order();
    for number in 1..u64::MAX {
        match next_line(reader, line) {
            Ok(true) => {}
            Ok(false) => return Ok(LinesRead {
                number,
                more: false,
            }),
            Err(fault) => return Err(fault),
        }
        let incoming = match read_arrival(alloc, config, line.as_slice()) {
            Ok(Some(incoming)) => incoming,
            Ok(None) => return Ok(LinesRead { number, more: true }),
            Err(_) => return Err(LinesFault::Memory),
        };
        match add_arrival(config, lists, incoming) {
            Ok(()) => {}
            Err(_) => return Err(LinesFault::Memory),
        }
    }
    Err(LinesFault::Input)
}

/// Writes that the step of a line isn't possible.
fn note<W: Write>(number: u64, text: &mut Vec<u8>, writer: &mut W) -> Result<(), LinesFault>
    ensures ok { OnOk result (Appends (W.contents writer.old) (W.contents writer.new) (not_now_text number)) }
    ensures begins { (k : ℕ) × Appends (W.contents writer.old) (W.contents writer.new) (take k (not_now_text number)) }
    ensures fault { IfErr result (λ e. IsCut e) }
{
    text.clear();
    match push_not_now(text, number) {
        Ok(()) => {}
        Err(_) => return Err(LinesFault::Memory),
    }
    match send(writer, text.as_slice()) {
        Ok(()) => Ok(()),
        Err(_) => Err(LinesFault::Output),
    }
}

/// Makes the step of a line, or writes that it isn't possible.
fn act<W: Write>(
    alloc: Global,
    world: &mut World,
    number: u64,
    line: &[u8],
    text: &mut Vec<u8>,
    writer: &mut W,
) -> Result<(), LinesFault>
    ensures { Acted result number world.old line.now world.new (W.contents writer.old) (W.contents writer.new) }
{
    let Some(step) = read_step(world.config(), line) else {
        return Err(LinesFault::Line(number));
    };
    match world.step(alloc, step) {
        Ok(()) => Ok(()),
        Err(StepFault::NotNow) => note(number, text, writer),
        Err(StepFault::NoMemory) => Err(LinesFault::Memory),
    }
}

/// Makes the steps of the lines from the one on that was read last.
fn run_steps<R: BufRead, W: Write>(
    alloc: Global,
    world: &mut World,
    front: LinesRead,
    line: &mut Vec<u8>,
    reader: &mut R,
    writer: &mut W,
) -> Result<(), LinesFault>
    ensures { Ran result front.number world.old (left_of front.more line.old.items (R.remaining reader.old))
        world.new (W.contents writer.old) (W.contents writer.new) }
{
    let mut text = Vec::new(alloc);
    let mut more = front.more;
    for number in front.number..u64::MAX {
        if !more {
            return Ok(());
        }
        match act(alloc, world, number, line.as_slice(), &mut text, writer) {
            Ok(()) => {}
            Err(fault) => return Err(fault),
        }
        more = match next_line(reader, line) {
            Ok(more) => more,
            Err(fault) => return Err(fault),
        };
    }
    Err(LinesFault::Input)
}

/// Writes the report of a pipeline.
fn write_report<W: Write>(alloc: Global, world: &World, writer: &mut W) -> Result<(), LinesFault>
    ensures ok { OnOk result (Appends (W.contents writer.old) (W.contents writer.new) (report world.now)) }
    ensures begins { (k : ℕ) × Appends (W.contents writer.old) (W.contents writer.new) (take k (report world.now)) }
    ensures fault { IfErr result (λ e. IsCut e) }
{
    let mut text = Vec::new(alloc);
    match push_report(&mut text, world) {
        Ok(()) => {}
        Err(_) => return Err(LinesFault::Memory),
    }
    match send(writer, text.as_slice()) {
        Ok(()) => Ok(()),
        Err(_) => Err(LinesFault::Output),
    }
}

/// Reads what arrives and then a step a line, makes each step before it reads the next line, writes
/// the number of each line whose step isn't possible, and at the end the report.
///
/// It stops at a line that is no replay line, at a failure of the reader or the writer, and where no
/// memory is left; what was noted of the lines before then stays written, without a report.
pub fn replay_lines<R: BufRead, W: Write>(
    alloc: Global,
    config: Config,
    reader: &mut R,
    writer: &mut W,
) -> Result<(), LinesFault>
    ensures { IfSome (R.remaining reader.old) (λ input.
        Replayed config result input (W.contents writer.old) (W.contents writer.new)) }
{
    gathered_begin();
    let mut line = Vec::new(alloc);
    // What is large is given to `drop` whole: let go field by field at each end, it is dear to prove.
    let Ok(mut lists) = no_arrivals(alloc, &config) else {
        drop(config);
        return Err(LinesFault::Memory);
    };
    let front = match gather(alloc, &config, reader, &mut line, &mut lists) {
        Ok(front) => front,
        Err(fault) => {
            drop((config, lists));
            return Err(fault);
        }
    };
    let Ok(mut world) = World::new(alloc, config, lists) else {
        return Err(LinesFault::Memory);
    };
    match run_steps(alloc, &mut world, front, &mut line, reader, writer) {
        Ok(()) => {}
        Err(fault) => {
            drop(world);
            return Err(fault);
        }
    }
    let reported = write_report(alloc, &world, writer);
    drop(world);
    reported
}
