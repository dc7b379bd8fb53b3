//! What a replay prints: the steps that weren't possible, and the report.
ghost use Rattle.std.specs.Prelude.{◌≡◌, ◌++◌, OnOk};
ghost use Rattle.std.specs.List.{flat_map, range_with_len};
ghost use Rattle.router_rules.specs.Links.{link_count};
ghost use Rattle.cli_replay.specs.Report.{counts_text, link_line, link_text, name_text, names_text, not_now_text, report};

use cli_io::{push_count, push_drops};
use pipe_model::{Bytes, Outgoing, World};
use process_packet::Totals;
use router_rules::{interface_at, link_count};
use std::alloc::AllocError;
use text_values::push_decimal;

/// Adds the name of what left: its arriving link and its number there, an answer with an `a` after it.
fn push_name(text: &mut Vec<u8>, left: &Outgoing) -> Result<(), AllocError>
    ensures { OnOk result (text.new.items ≡ text.old.items ++ name_text left.now) }
{
    push_decimal(text, left.arrived)?;
    text.extend_from_slice(b".")?;
    push_decimal(text, left.number)?;
    if left.answer {
        text.extend_from_slice(b"a")?;
    }
    Ok(())
}

/// Adds the names, each after a blank.
fn push_names(text: &mut Vec<u8>, sent: &[(Outgoing, Bytes)]) -> Result<(), AllocError>
    ensures { OnOk result (text.new.items ≡ text.old.items ++ names_text sent.now) }
{
    for pair in sent {
        text.extend_from_slice(b" ")?;
        push_name(text, &pair.0)?;
    }
    Ok(())
}

/// Adds the line of a link: what it sent, in order.
fn push_link(text: &mut Vec<u8>, link: u16, sent: &[(Outgoing, Bytes)]) -> Result<(), AllocError>
    ensures { OnOk result (text.new.items ≡ text.old.items ++ link_text link sent.now) }
{
    text.extend_from_slice(b"link ")?;
    push_decimal(text, link)?;
    text.extend_from_slice(b" sent")?;
    if sent.is_empty() {
        text.extend_from_slice(b" -")?;
    } else {
        push_names(text, sent)?;
    }
    text.extend_from_slice(b"\n")
}

/// Adds the counts of what was received, sent and answered, and of what waits.
fn push_counts(text: &mut Vec<u8>, totals: &Totals, waiting: u128) -> Result<(), AllocError>
    ensures { OnOk result (text.new.items ≡ text.old.items ++ counts_text totals.now waiting) }
{
    push_count(text, b"received", totals.received)?;
    push_count(text, b"sent", totals.sent)?;
    push_count(text, b"answered", totals.answered)?;
    push_count(text, b"waiting", waiting)
}

/// Adds the line of each link, in ascending order of the interfaces.
fn push_links(text: &mut Vec<u8>, world: &World) -> Result<(), AllocError>
    ensures { OnOk result (text.new.items
        ≡ text.old.items ++ flat_map (link_line world.now) (range_with_len 0 (link_count world.now.config))) }
{
    let config = world.config();
    for index in 0..link_count(config) {
        let link = interface_at(config, index);
        push_link(text, link, world.sent(link))?;
    }
    Ok(())
}

/// Adds the report of a pipeline: what each link sent, the counts of what was received, sent and
/// answered and of what waits, and a line for each cause that something was dropped for. At `Err`
/// no memory was left, and a beginning of the report may have been added.
#[tactic(auto, unfolding(crate::specs::Report::report))]
pub fn push_report(text: &mut Vec<u8>, world: &World) -> Result<(), AllocError>
    ensures { OnOk result (text.new.items ≡ text.old.items ++ report world.now) }
{
    let totals = world.totals();
    push_links(text, world)?;
    push_counts(text, &totals, world.waiting())?;
    push_drops(text, &totals.dropped)
}

/// Adds the line that tells that the step of a line wasn't possible. At `Err` no memory was left,
/// and a beginning of the line may have been added.
pub fn push_not_now(text: &mut Vec<u8>, line: u64) -> Result<(), AllocError>
    ensures { OnOk result (text.new.items ≡ text.old.items ++ not_now_text line) }
{
    text.extend_from_slice(b"not now ")?;
    push_decimal(text, line)?;
    text.extend_from_slice(b"\n")
}
