//! What a running router prints at its end.
ghost use Rattle.std.specs.Prelude.{◌≡◌, ◌++◌, OnOk, length, min};
ghost use Rattle.std.specs.List.{flat_map, range_with_len};
ghost use Rattle.cli_io.specs.Counts.{drops_text};
ghost use Rattle.cli_run.specs.RunReport.{run_report, sent_line, sent_text, totals_text};

use cli_io::{push_count, push_drops};
use process_packet::Totals;
use std::alloc::AllocError;
use text_values::push_decimal;

/// Adds the line of a link: how much it sent.
fn push_sent(text: &mut Vec<u8>, link: u16, sent: u128) -> Result<(), AllocError>
    ensures { OnOk result (text.new.items ≡ text.old.items ++ sent_text link sent) }
{
    text.extend_from_slice(b"link ")?;
    push_decimal(text, link)?;
    text.extend_from_slice(b" ")?;
    push_count(text, b"sent", sent)
}

/// Adds the line of each link that has both an interface and a count, in their order.
fn push_all_sent(text: &mut Vec<u8>, links: &[u16], sent: &[u128]) -> Result<(), AllocError>
    ensures { OnOk result (text.new.items
        ≡ text.old.items ++ flat_map (sent_line links.now sent.now) (range_with_len 0 (min (length links.now) (length sent.now)))) }
{
    let count = links.len().min(sent.len());
    for index in 0..count {
        push_sent(text, links[index], sent[index])?;
    }
    Ok(())
}

/// Adds the counts of what was received, sent and answered.
fn push_totals(text: &mut Vec<u8>, totals: &Totals) -> Result<(), AllocError>
    ensures { OnOk result (text.new.items ≡ text.old.items ++ totals_text totals.now) }
{
    push_count(text, b"received", totals.received)?;
    push_count(text, b"sent", totals.sent)?;
    push_count(text, b"answered", totals.answered)
}

/// Adds the report of a router that ran: how much each link sent, by its interface, the counts of
/// what was received, sent and answered, and a line for each cause that something was dropped for.
/// At `Err` no memory was left, and a beginning of the report may have been added.
#[tactic(auto, unfolding(crate::specs::RunReport::run_report))]
pub fn push_run_report(
    text: &mut Vec<u8>,
    links: &[u16],
    sent: &[u128],
    totals: &Totals,
) -> Result<(), AllocError>
    ensures { OnOk result (text.new.items ≡ text.old.items ++ run_report links.now sent.now totals.now) }
{
    push_all_sent(text, links, sent)?;
    push_totals(text, totals)?;
    push_drops(text, &totals.dropped)
}
