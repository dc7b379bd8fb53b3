//! What a topology says to one border router.
ghost use Rattle.std.specs.Prelude.{◌≡◌, option_map};
ghost use Rattle.serde_json.specs.Find.{get_member};
ghost use Rattle.serde_json.specs.View.{members_view, view};
ghost use Rattle.topology.specs.Outcome.{Gives, taken};
ghost use Rattle.topology.specs.Topology.{list_values, lists_of, ports_at, topology_of, topology_values};

use crate::entry::{Members, address_at, isd_as_at, object_at, refused};
use crate::fault::{Found, Place, Refusal, TopologyFault};
use crate::interface::Interface;
use crate::left_out::LeftOut;
use crate::port_range::read_ports;
use crate::routers::{links_of, siblings_beside};
use crate::servers::services_of;
use process_packet::{PortRange, Service, Sibling, Underlay};
use serde_json::Value;
use std::alloc::Global;

/// The lists of a topology.
#[derive(Drop)]
pub struct Lists<'t> {
    /// The router's links to other ASes, in the order of their keys.
    pub interfaces: Vec<Interface<'t>>,
    /// The interfaces of the AS's other routers.
    pub siblings: Vec<Sibling>,
    /// The services of the AS.
    pub services: Vec<Service>,
    /// What isn't carried over.
    pub left_out: Vec<LeftOut<'t>>,
}

/// What a topology says to one border router of its AS.
#[derive(Drop)]
pub struct Topology<'t> {
    /// The ISD-AS of the AS, as it is written.
    pub isd_as: &'t str,
    /// The address and port of the router within the AS.
    pub internal: Underlay,
    /// The ports at which applications on end hosts listen themselves, if any do.
    pub ports: Option<PortRange>,
    /// Its lists.
    pub lists: Lists<'t>,
}

/// The member of this name.
fn member_named<'t>(members: &'t Members, name: &str) -> Option<&'t Value>
    ensures { option_map (λ member. view member.now) result ≡ get_member name.now (members_view members.now.entries) }
{
    members.get(name)
}

/// The border router of this name.
fn router_named<'t>(routers: &'t Members, name: &'t str) -> Result<&'t Value, Refusal<'t>>
    ensures { taken (λ router. view router.now) result ≡ get_member name.now (members_view routers.now.entries) }
{
    match member_named(routers, name) {
        Some(router) => Ok(router),
        None => Err(Refusal {
            place: Place::Routers,
            key: name,
            found: Found::Nothing,
            wanted: "a border router of this name",
        }),
    }
}

/// The ports at which applications on end hosts listen themselves.
#[tactic(auto, unfolding(crate::specs::Topology::ports_at))]
fn ports_at(value: &Value) -> Result<Option<PortRange>, Refusal<'_>>
    ensures { taken (λ ports. ports) result ≡ ports_at (view value.now) }
{
    let Some(found) = value.get("dispatched_ports") else {
        return Ok(None);
    };
    match found.as_str().and_then(read_ports) {
        Some(ports) => Ok(ports),
        None => {
            let wanted = "two ports, as in \"31000-32767\", or \"all\", \"-\" or \"\"";
            Err(refused(Place::Top, "dispatched_ports", Some(found), wanted))
        }
    }
}

/// The lists of a topology, of the interfaces of the router that is named, and of all routers.
#[tactic(auto, unfolding(crate::specs::Topology::lists_of))]
fn lists_of<'t>(
    alloc: Global,
    router: &'t str,
    interfaces: &'t Members,
    routers: &'t Members,
    value: &'t Value,
) -> Result<Lists<'t>, TopologyFault<'t>>
    ensures { Gives list_values result
        (lists_of router.now (members_view interfaces.now.entries) (members_view routers.now.entries) (view value.now)) }
{
    let mut left_out = Vec::new(alloc);
    let interfaces = links_of(alloc, &mut left_out, router, interfaces)?;
    let siblings = siblings_beside(alloc, &mut left_out, router, routers)?;
    let services = services_of(alloc, &mut left_out, value)?;
    Ok(Lists {
        interfaces,
        siblings,
        services,
        left_out,
    })
}

/// What a topology says to its border router of this name.
///
/// Of more than one control service, or discovery service, the first one by name is taken. Peering
/// links, interfaces over an underlay that isn't UDP over IP, and timers of BFD are left out; they
/// are told in `left_out`. At `Err(Refused(..))` the topology says nothing to this router, or a
/// value in it isn't taken; at `Err(Memory)` no memory was left.
#[tactic(auto, unfolding(crate::specs::Topology::topology_of))]
pub fn read_topology<'t>(
    alloc: Global,
    value: &'t Value,
    router: &'t str,
) -> Result<Topology<'t>, TopologyFault<'t>>
    ensures { Gives topology_values result (topology_of router.now (view value.now)) }
{
    let isd_as = isd_as_at(Place::Top, value, "isd_as")?;
    let routers = object_at(Place::Top, value, "border_routers")?;
    let own = router_named(routers, router)?;
    let place = Place::Router(router);
    let internal = address_at(place, own, "internal_addr")?;
    let interfaces = object_at(place, own, "interfaces")?;
    let ports = ports_at(value)?;
    let lists = lists_of(alloc, router, interfaces, routers, value)?;
    Ok(Topology {
        isd_as,
        internal,
        ports,
        lists,
    })
}
