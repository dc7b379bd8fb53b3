//! The configuration that is made.

ghost use Rattle.std.specs.Prelude.{◌≡◌, IfErr, IfOk, string_bytes};
ghost use Rattle.hex.specs.Hex.{encode_lower};
ghost use Rattle.config_text.specs.Text.{config_text};
ghost use Rattle.topology.specs.Topology.{topology_values};
ghost use Rattle.cli_import.specs.Import.{IsNoText, IsRead, IsRefused};

use cli_check::config_of;
use cli_faults::Fault;
use config_text::push_config;
use process_packet::{Config, PortRange};
use router_config::ConfigFault;
use std::alloc::Global;
use topology::Topology;

/// A configuration, and its text.
#[derive(Drop)]
pub(crate) struct Made {
    pub(crate) text: String,
    pub(crate) config: Config,
}

/// The text of the configuration.
fn text_of(
    alloc: Global,
    topology: &Topology<'_>,
    key: &[u8; 16],
    ports: Option<PortRange>,
) -> Result<String, Fault>
    ensures text { IfOk result (λ text. string_bytes text ≡ config_text (topology_values topology.now) (encode_lower key.now) ports) }
    ensures fault { IfErr result (λ told. IsNoText (config_text (topology_values topology.now) (encode_lower key.now) ports) told) }
{
    let Ok(digits) = hex::encode(alloc, key) else {
        return Err(Fault::Memory);
    };
    let mut text = Vec::new(alloc);
    let Ok(()) = push_config(&mut text, topology, digits.as_bytes(), ports) else {
        return Err(Fault::Memory);
    };
    match String::from_utf8(text) {
        Ok(text) => Ok(text),
        Err(_) => Err(Fault::Config(ConfigFault::NotToml)),
    }
}

/// The configuration of the router to which a topology says this, under a forwarding key. It is
/// read from its text as `router run` reads it, so its text is that of a good one.
pub(crate) fn made_of(
    alloc: Global,
    topology: &Topology<'_>,
    key: &[u8; 16],
    ports: Option<PortRange>,
) -> Result<Made, Fault>
    ensures made { IfOk result (λ made. IsRead (config_text (topology_values topology.now) (encode_lower key.now) ports) made) }
    ensures fault { IfErr result (λ told. IsRefused (config_text (topology_values topology.now) (encode_lower key.now) ports) told) }
{
    let text = text_of(alloc, topology, key, ports)?;
    let config = config_of(alloc, text.as_str())?;
    Ok(Made { text, config })
}
