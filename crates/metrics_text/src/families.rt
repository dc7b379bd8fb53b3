//! The families, in their order.

ghost use Rattle.std.specs.Prelude.{◌≡◌, ◌++◌, OnOk};
ghost use Rattle.metrics_text.specs.Families.{answered_family, build_family, closed_family, drops_family, input_family, links_part, metrics, output_family, process_part, start_family, totals_part, version_sample};

use crate::link_counts::{Figure, LinkCounts};
use crate::reasons::EVERY;
use crate::samples::{push_drops, push_escaped, push_heading, push_links, push_plain};
use process_packet::Totals;
use std::alloc::AllocError;

#[tactic(auto, unfolding(crate::specs::Families::input_family))]
fn push_input(text: &mut Vec<u8>, links: &[LinkCounts]) -> Result<(), AllocError>
    ensures { OnOk result (text.new.items ≡ text.old.items ++ input_family links.now) }
{
    push_heading(
        text,
        "router_input_pkts_total",
        "Datagrams that a link's receiver took from its socket.",
        "counter",
    )?;
    push_links(text, "router_input_pkts_total", Figure::Input, links)
}

#[tactic(auto, unfolding(crate::specs::Families::output_family))]
fn push_output(text: &mut Vec<u8>, links: &[LinkCounts]) -> Result<(), AllocError>
    ensures { OnOk result (text.new.items ≡ text.old.items ++ output_family links.now) }
{
    push_heading(
        text,
        "router_output_pkts_total",
        "Packets and answers that a link's forwarder handed to its socket.",
        "counter",
    )?;
    push_links(text, "router_output_pkts_total", Figure::Output, links)
}

#[tactic(auto, unfolding(crate::specs::Families::drops_family))]
fn push_dropped(text: &mut Vec<u8>, totals: &Totals) -> Result<(), AllocError>
    ensures { OnOk result (text.new.items ≡ text.old.items ++ drops_family totals.now) }
{
    push_heading(
        text,
        "router_dropped_pkts_total",
        "Packets and answers that were dropped, by cause.",
        "counter",
    )?;
    push_drops(text, &EVERY, totals)
}

#[tactic(auto, unfolding(crate::specs::Families::answered_family))]
fn push_answered(text: &mut Vec<u8>, totals: &Totals) -> Result<(), AllocError>
    ensures { OnOk result (text.new.items ≡ text.old.items ++ answered_family totals.now) }
{
    push_heading(
        text,
        "router_answered_pkts_total",
        "Packets whose answer was handed to a socket.",
        "counter",
    )?;
    push_plain(text, "router_answered_pkts_total", totals.answered)
}

#[tactic(auto, unfolding(crate::specs::Families::closed_family))]
fn push_closed(text: &mut Vec<u8>, links: &[LinkCounts]) -> Result<(), AllocError>
    ensures { OnOk result (text.new.items ≡ text.old.items ++ closed_family links.now) }
{
    push_heading(
        text,
        "router_link_closed",
        "1 where the link was closed, else 0.",
        "gauge",
    )?;
    push_links(text, "router_link_closed", Figure::Closed, links)
}

#[tactic(auto, unfolding(crate::specs::Families::version_sample))]
fn push_version(text: &mut Vec<u8>, version: &str) -> Result<(), AllocError>
    ensures { OnOk result (text.new.items ≡ text.old.items ++ version_sample version.now) }
{
    text.extend_from_slice(b"yewpleat_build_info{version=\"")?;
    push_escaped(text, version.as_bytes())?;
    text.extend_from_slice(b"\"} 1\n")
}

#[tactic(auto, unfolding(crate::specs::Families::build_family))]
fn push_build(text: &mut Vec<u8>, version: &str) -> Result<(), AllocError>
    ensures { OnOk result (text.new.items ≡ text.old.items ++ build_family version.now) }
{
    push_heading(
        text,
        "yewpleat_build_info",
        "The version that runs; its value is 1.",
        "gauge",
    )?;
    push_version(text, version)
}

#[tactic(auto, unfolding(crate::specs::Families::start_family))]
fn push_start(text: &mut Vec<u8>, start: u64) -> Result<(), AllocError>
    ensures { OnOk result (text.new.items ≡ text.old.items ++ start_family start) }
{
    push_heading(
        text,
        "process_start_time_seconds",
        "When it began to run, in seconds since 1970.",
        "gauge",
    )?;
    push_plain(text, "process_start_time_seconds", u128::from(start))
}

#[tactic(auto, unfolding(crate::specs::Families::links_part))]
fn push_links_part(text: &mut Vec<u8>, links: &[LinkCounts]) -> Result<(), AllocError>
    ensures { OnOk result (text.new.items ≡ text.old.items ++ links_part links.now) }
{
    push_input(text, links)?;
    push_output(text, links)
}

#[tactic(auto, unfolding(crate::specs::Families::totals_part))]
fn push_totals_part(text: &mut Vec<u8>, totals: &Totals) -> Result<(), AllocError>
    ensures { OnOk result (text.new.items ≡ text.old.items ++ totals_part totals.now) }
{
    push_dropped(text, totals)?;
    push_answered(text, totals)
}

#[tactic(auto, unfolding(crate::specs::Families::process_part))]
fn push_process_part(
    text: &mut Vec<u8>,
    links: &[LinkCounts],
    version: &str,
    start: u64,
) -> Result<(), AllocError>
    ensures { OnOk result (text.new.items ≡ text.old.items ++ process_part links.now version.now start) }
{
    push_closed(text, links)?;
    push_build(text, version)?;
    push_start(text, start)
}

/// Adds the text of a running router's counts: of each of these links, of the totals, which version
/// runs, and since when, in seconds since 1970. At `Err` no memory was left, and a beginning of it
/// may have been added.
#[tactic(auto, unfolding(crate::specs::Families::metrics))]
pub fn push_metrics(
    text: &mut Vec<u8>,
    links: &[LinkCounts],
    totals: &Totals,
    version: &str,
    start: u64,
) -> Result<(), AllocError>
    ensures { OnOk result (text.new.items ≡ text.old.items ++ metrics links.now totals.now version.now start) }
{
    push_links_part(text, links)?;
    push_totals_part(text, totals)?;
    push_process_part(text, links, version, start)
}
