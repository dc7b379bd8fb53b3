//! A family's head, and its samples.

ghost use Rattle.std.specs.Prelude.{◌≡◌, ◌++◌, OnOk};
ghost use Rattle.process_packet.specs.Totals.{dropped_for};
ghost use Rattle.metrics_text.specs.Samples.{cause_text, dropped_text, drops_of, escape, escaped, heading, interface_text, line_text, link_text, links_text, plain_text, tail_text, value_text};

use crate::link_counts::{Figure, LinkCounts, figure_of};
use crate::reasons::reason_of;
use process_packet::{Cause, Totals};
use std::alloc::AllocError;
use text_values::push_decimal;

/// Adds what ends a line: a blank, and this.
fn push_tail(text: &mut Vec<u8>, tail: &str) -> Result<(), AllocError>
    ensures { OnOk result (text.new.items ≡ text.old.items ++ tail_text tail.now) }
{
    text.extend_from_slice(b" ")?;
    text.extend_from_slice(tail.as_bytes())?;
    text.extend_from_slice(b"\n")
}

/// Adds a line that tells of a family.
fn push_line(text: &mut Vec<u8>, head: &str, name: &str, tail: &str) -> Result<(), AllocError>
    ensures { OnOk result (text.new.items ≡ text.old.items ++ line_text head.now name.now tail.now) }
{
    text.extend_from_slice(head.as_bytes())?;
    text.extend_from_slice(name.as_bytes())?;
    push_tail(text, tail)
}

/// Adds the two lines before a family's samples: what it is, and its type.
pub(crate) fn push_heading(
    text: &mut Vec<u8>,
    name: &str,
    help: &str,
    kind: &str,
) -> Result<(), AllocError>
    ensures { OnOk result (text.new.items ≡ text.old.items ++ heading name.now help.now kind.now) }
{
    push_line(text, "# HELP ", name, help)?;
    push_line(text, "# TYPE ", name, kind)
}

/// Adds a sample without labels.
pub(crate) fn push_plain(text: &mut Vec<u8>, name: &str, value: u128) -> Result<(), AllocError>
    ensures { OnOk result (text.new.items ≡ text.old.items ++ plain_text name.now value) }
{
    text.extend_from_slice(name.as_bytes())?;
    text.extend_from_slice(b" ")?;
    push_decimal(text, value)?;
    text.extend_from_slice(b"\n")
}

/// Adds the end of a sample with labels: its value.
fn push_value(text: &mut Vec<u8>, value: u128) -> Result<(), AllocError>
    ensures { OnOk result (text.new.items ≡ text.old.items ++ value_text value) }
{
    text.extend_from_slice(b"\"} ")?;
    push_decimal(text, value)?;
    text.extend_from_slice(b"\n")
}

/// Adds what names a link in its sample.
fn push_interface(text: &mut Vec<u8>, interface: u16) -> Result<(), AllocError>
    ensures { OnOk result (text.new.items ≡ text.old.items ++ interface_text interface) }
{
    text.extend_from_slice(b"{interface=\"")?;
    push_decimal(text, interface)
}

/// Adds the sample of a link.
fn push_link(text: &mut Vec<u8>, name: &str, interface: u16, value: u128) -> Result<(), AllocError>
    ensures { OnOk result (text.new.items ≡ text.old.items ++ link_text name.now interface value) }
{
    text.extend_from_slice(name.as_bytes())?;
    push_interface(text, interface)?;
    push_value(text, value)
}

/// Adds a sample for each link, in their order.
pub(crate) fn push_links(
    text: &mut Vec<u8>,
    name: &str,
    figure: Figure,
    links: &[LinkCounts],
) -> Result<(), AllocError>
    ensures { OnOk result (text.new.items ≡ text.old.items ++ links_text name.now figure links.now) }
{
    for link in links {
        push_link(text, name, link.interface, figure_of(figure, link))?;
    }
    Ok(())
}

/// Adds what names a cause in its sample.
fn push_cause(text: &mut Vec<u8>, cause: Cause) -> Result<(), AllocError>
    ensures { OnOk result (text.new.items ≡ text.old.items ++ cause_text cause) }
{
    push_decimal(text, cause.number())?;
    text.extend_from_slice(b"\",reason=\"")?;
    text.extend_from_slice(reason_of(cause).as_bytes())
}

/// Adds the sample of a cause.
fn push_dropped(text: &mut Vec<u8>, cause: Cause, count: u128) -> Result<(), AllocError>
    ensures { OnOk result (text.new.items ≡ text.old.items ++ dropped_text cause count) }
{
    text.extend_from_slice(b"router_dropped_pkts_total{cause=\"")?;
    push_cause(text, cause)?;
    push_value(text, count)
}

/// Adds a sample for each of these causes, in their order.
pub(crate) fn push_drops(
    text: &mut Vec<u8>,
    causes: &[Cause],
    totals: &Totals,
) -> Result<(), AllocError>
    ensures { OnOk result (text.new.items ≡ text.old.items ++ drops_of totals.now causes.now) }
{
    for cause in causes {
        push_dropped(text, *cause, totals.dropped_for(*cause))?;
    }
    Ok(())
}

/// Adds a byte of a label's value.
fn push_escape(text: &mut Vec<u8>, byte: u8) -> Result<(), AllocError>
    ensures { OnOk result (text.new.items ≡ text.old.items ++ escape byte) }
{
    match byte {
        b'\\' => text.extend_from_slice(b"\\\\"),
        b'"' => text.extend_from_slice(b"\\\""),
        b'\n' => text.extend_from_slice(b"\\n"),
        _ => text.extend_from_slice(&[byte]),
    }
}

/// Adds a label's value, in which a backslash, a quote and a line's end are escaped.
pub(crate) fn push_escaped(text: &mut Vec<u8>, value: &[u8]) -> Result<(), AllocError>
    ensures { OnOk result (text.new.items ≡ text.old.items ++ escaped value.now) }
{
    for byte in value {
        push_escape(text, *byte)?;
    }
    Ok(())
}
