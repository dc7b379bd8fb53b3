//! A configuration.
ghost use Rattle.std.specs.Prelude.{◌≡◌, ◌++◌, OnOk};
ghost use Rattle.config_text.specs.Text.{around_text, config_text, head_text, ports_text};
ghost use Rattle.topology.specs.Topology.{list_values, topology_values};

use crate::lines::{push_address, push_text};
use crate::members::{push_links, push_services, push_siblings};
use process_packet::PortRange;
use std::alloc::AllocError;
use text_values::push_decimal;
use topology::{Lists, Topology};

/// What a topology doesn't tell: one band, the port of the hosts' dispatcher, and sizes to begin
/// with.
const USUAL: &[u8] =
    b"internal_bands = 1\nhost_port = 30041\nprocessors = 1\ncapacity = 1024\nseed = 0\nbuffers = 2048\n";

/// Adds the line of the ports at which applications listen themselves, if there are any.
fn push_ports(text: &mut Vec<u8>, ports: Option<PortRange>) -> Result<(), AllocError>
    ensures { OnOk result (text.new.items ≡ text.old.items ++ ports_text ports) }
{
    let Some(range) = ports else {
        return Ok(());
    };
    text.extend_from_slice(b"dispatched_ports = [")?;
    push_decimal(text, range.first)?;
    text.extend_from_slice(b", ")?;
    push_decimal(text, range.last)?;
    text.extend_from_slice(b"]\n")?;
    Ok(())
}

/// Adds what stands above the lists; the key is told by its digits.
#[tactic(auto, unfolding(crate::specs::Text::head_text))]
fn push_head(
    text: &mut Vec<u8>,
    topology: &Topology<'_>,
    key: &[u8],
    ports: Option<PortRange>,
) -> Result<(), AllocError>
    ensures { OnOk result (text.new.items ≡ text.old.items ++ head_text (topology_values topology.now) key.now ports) }
{
    text.extend_from_slice(b"version = 2\n")?;
    push_text(text, b"isd_as", topology.isd_as.as_bytes())?;
    push_text(text, b"key", key)?;
    push_address(text, b"internal", &topology.internal)?;
    text.extend_from_slice(USUAL)?;
    push_ports(text, ports)?;
    Ok(())
}

/// Adds the lists.
#[tactic(auto, unfolding(crate::specs::Text::around_text))]
fn push_around(text: &mut Vec<u8>, lists: &Lists<'_>) -> Result<(), AllocError>
    ensures { OnOk result (text.new.items ≡ text.old.items ++ around_text (list_values lists.now)) }
{
    push_links(text, lists.interfaces.as_slice())?;
    push_siblings(text, lists.siblings.as_slice())?;
    push_services(text, lists.services.as_slice())
}

/// Adds the configuration of the router to which a topology says this, with a forwarding key told
/// by its hex digits, and these ports at which applications listen themselves.
///
/// At `Err` no memory was left, and a beginning of it may have been added.
pub fn push_config(
    text: &mut Vec<u8>,
    topology: &Topology<'_>,
    key: &[u8],
    ports: Option<PortRange>,
) -> Result<(), AllocError>
    ensures { OnOk result (text.new.items ≡ text.old.items ++ config_text (topology_values topology.now) key.now ports) }
{
    push_head(text, topology, key, ports)?;
    push_around(text, &topology.lists)
}
