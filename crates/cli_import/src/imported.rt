//! What comes of a topology.

ghost use Rattle.std.specs.Prelude.{◌≡◌, IfErr, IfOk, Some, None, map, ⊤};
ghost use Rattle.serde_json.specs.View.{view};
ghost use Rattle.cli_faults.specs.declared.fault.Fault.TheVariants.{Memory};
ghost use Rattle.cli_import.specs.Faults.{IsOfTopology};
ghost use Rattle.cli_import.specs.Import.{IsImportOf, NoImportOf, left_of, ports_if};
ghost use Rattle.topology.specs.LeftOut.{left};
ghost use Rattle.topology.specs.Topology.{topology_of, topology_values};

use crate::made::{Made, made_of};
use cli_faults::Fault;
use process_packet::PortRange;
use serde_json::Value;
use std::alloc::Global;
use topology::{LeftOut, Refusal, Topology, TopologyFault, read_topology};

/// The router's configuration, and what of the topology isn't in it.
#[derive(Drop)]
pub(crate) struct Imported<'t> {
    pub(crate) made: Made,
    pub(crate) left_out: Vec<LeftOut<'t>>,
}

/// The fault of a topology that says nothing to a router.
fn fault_of_refusal(alloc: Global, refusal: &Refusal<'_>) -> Fault
    ensures { IsOfTopology ⊤ result }
{
    match format!(in alloc; "{refusal}") {
        Ok(words) => Fault::Topology(words),
        Err(_) => Fault::Memory,
    }
}

/// What a topology says to a router. The fault of one that says nothing to it has its words.
fn topology_for<'t>(alloc: Global, value: &'t Value, router: &'t str) -> Result<Topology<'t>, Fault>
    ensures said { IfOk result (λ topology. topology_of router.now (view value.now) ≡ Some (topology_values topology)) }
    ensures fault { IfErr result (λ told. IsOfTopology (topology_of router.now (view value.now) ≡ None) told) }
{
    match read_topology(alloc, value, router) {
        Ok(topology) => Ok(topology),
        Err(TopologyFault::Memory) => Err(Fault::Memory),
        Err(TopologyFault::Refused(refusal)) => Err(fault_of_refusal(alloc, &refusal)),
    }
}

/// The ports at which applications listen, where they are asked for.
fn ports_of(topology: &Topology<'_>, port_range: bool) -> Option<PortRange>
    ensures { result ≡ ports_if port_range topology.now.ports }
{
    if port_range { topology.ports } else { None }
}

/// What of a topology isn't carried over.
fn left_out_of(topology: Topology<'_>, port_range: bool) -> Result<Vec<LeftOut<'_>>, Fault>
    ensures left { IfOk result (λ list. map left list.items ≡ left_of (topology_values topology.entry) port_range) }
    ensures fault { IfErr result (λ told. told ≡ Memory) }
{
    let Topology { ports, lists, .. } = topology;
    let mut list = lists.left_out;
    match ports {
        Some(ports) if !port_range => list.push(LeftOut::Ports(ports))?,
        _ => {}
    }
    Ok(list)
}

/// What comes of a topology for the router of this name: its configuration under a forwarding key,
/// with the ports at which applications listen where they are asked for.
pub(crate) fn import_topology<'t>(
    alloc: Global,
    value: &'t Value,
    router: &'t str,
    key: &[u8; 16],
    port_range: bool,
) -> Result<Imported<'t>, Fault>
    ensures made { IfOk result (λ it. IsImportOf (view value.now) router.now key.now port_range it) }
    ensures fault { IfErr result (λ told. NoImportOf (view value.now) router.now key.now port_range told) }
{
    let topology = topology_for(alloc, value, router)?;
    let ports = ports_of(&topology, port_range);
    let made = made_of(alloc, &topology, key, ports)?;
    let left_out = left_out_of(topology, port_range)?;
    Ok(Imported { made, left_out })
}
