//! Whether the routers of a net agree: each one's configuration fits those of the others, and how
//! they are wired.

ghost use Rattle.std.specs.Prelude.{◌≡◌, ◌↔◌, ◌==◌, ◌&&◌, ◌||◌, ℕ, IsTrue, map, option_copied};
ghost use Rattle.std.specs.List.{list_all};
ghost use Rattle.net_laws.specs.Agreement as agreement;
ghost use Rattle.net_laws.specs.Net.{Agrees, net_of, router_of};
ghost use Rattle.process_packet.specs.Network.{network};

use crate::net::{End, Net, Wire};
use process_packet::{Config, Link, PortRange, Service};
use segment_switch::LinkKind;

/// Whether both are the same kind.
pub(crate) fn same_kind(one: LinkKind, other: LinkKind) -> bool
    ensures { result ≡ agreement.same_kind one other }
{
    matches!(
        (one, other),
        (LinkKind::Core, LinkKind::Core)
            | (LinkKind::Parent, LinkKind::Parent)
            | (LinkKind::Child, LinkKind::Child)
    )
}

/// Whether the ends of a link may see each other so.
pub(crate) fn are_opposite(one: LinkKind, other: LinkKind) -> bool
    ensures { result ≡ agreement.are_opposite one other }
{
    matches!(
        (one, other),
        (LinkKind::Core, LinkKind::Core)
            | (LinkKind::Parent, LinkKind::Child)
            | (LinkKind::Child, LinkKind::Parent)
    )
}

/// Whether both are routers of one AS.
fn are_of_one_as(one: &Config, other: &Config) -> bool
    ensures { result ≡ agreement.are_of_one_as (network one.now) (network other.now) }
{
    one.isd == other.isd && one.autonomous_system == other.autonomous_system
}

/// Whether the router has no link of this number, and lists it as an interface of the other router.
pub(crate) fn lists(config: &Config, other: &Config, link: &Link) -> bool
    ensures { result ≡ agreement.lists (network config.now) other.now.internal link.now }
{
    config.own_link(link.id).is_none()
        && match config.sibling(link.id) {
            Some(sibling) => { sibling.at == other.internal && same_kind(sibling.kind, link.kind) }
            None => false,
        }
}

/// Whether the router lists each link of the other one.
fn lists_all(config: &Config, other: &Config) -> bool
    ensures { result ≡ list_all (agreement.lists (network config.now) other.now.internal) other.now.links.items }
{
    other.links.iter().all(|link| lists(config, other, link))
}

/// Whether the router has another address than the other one, and lists each link of it.
fn lists_router(config: &Config, other: &Config) -> bool
    ensures { result ≡ agreement.lists_router (router_of config.now) (router_of other.now) }
{
    config.internal != other.internal && lists_all(config, other)
}

/// Whether the router's configuration lists the service.
pub(crate) fn has_service(config: &Config, service: &Service) -> bool
    ensures { result ≡ agreement.has_service config.now.services.items service.now }
{
    config.services.iter().any(|other| service.number == other.number && service.at == other.at)
}

/// Whether the other router's configuration lists each service of this one's.
fn shares_services(config: &Config, other: &Config) -> bool
    ensures { result ≡ list_all (agreement.has_service other.now.services.items) config.now.services.items }
{
    config
        .services
        .iter()
        .all(|service| has_service(other, service))
}

/// Whether both are the same range of ports, or neither is there.
pub(crate) fn same_ports(one: &Option<PortRange>, other: &Option<PortRange>) -> bool
    ensures { result ≡ agreement.same_ports one.now other.now }
{
    match (one, other) {
        (None, None) => true,
        (Some(one), Some(other)) => one.first == other.first && one.last == other.last,
        _ => false,
    }
}

/// Whether two routers of one AS, or one and itself, agree.
fn agree_within(same: bool, one: &Config, other: &Config) -> bool
    ensures { result ≡ agreement.agree_within same (router_of one.now) (router_of other.now) }
{
    one.key.has_same_key(&other.key)
        && one.host_port == other.host_port
        && same_ports(&one.dispatched_ports, &other.dispatched_ports)
        && shares_services(one, other)
        && (same || lists_router(one, other))
}

/// Whether the routers at these places agree, unless they are of different ASes.
pub(crate) fn agree_as(router: usize, place: usize, config: &Config, other: &Config) -> bool
    ensures { result ≡ agreement.agree_as router place (router_of config.now) (router_of other.now) }
{
    !are_of_one_as(config, other) || agree_within(router == place, config, other)
}

/// Whether a router agrees with each that is of its AS.
pub(crate) fn agrees_with(configs: &[Config], router: usize, config: &Config) -> bool
    ensures { result ≡ agreement.config_agrees configs.now router (router_of config.now) }
{
    configs
        .iter()
        .enumerate()
        .all(|(place, other)| agree_as(router, place, config, other))
}

/// Whether the routers of each AS agree.
fn routers_agree(configs: &[Config]) -> bool
    ensures { result ≡ agreement.configs_agree configs.now }
{
    configs
        .iter()
        .enumerate()
        .all(|(router, config)| agrees_with(configs, router, config))
}

/// Whether both are the same end.
pub(crate) fn same_end(one: &End, other: &End) -> bool
    ensures { result ≡ agreement.same_end one.now other.now }
{
    one.router == other.router && one.link == other.link
}

/// The link that the end names.
pub(crate) fn link_at<'a>(configs: &'a [Config], end: &End) -> Option<&'a Link>
    ensures { option_copied result ≡ agreement.link_at (map router_of configs.now) end.now }
{
    match configs.get(end.router) {
        Some(config) => config.own_link(end.link),
        None => None,
    }
}

/// Whether a wire leads from the one link to the other.
fn are_joined(out: &Link, into: &Link) -> bool
    ensures { result ≡ agreement.are_joined out.now into.now }
{
    out.remote == into.local && into.remote == out.local && are_opposite(out.kind, into.kind)
}

/// Whether the AS that the link names at its other end, if it names one, is that of the router there.
fn names(link: &Link, there: &Config) -> bool
    ensures { result ≡ agreement.is_named link.now.neighbor (network there.now) }
{
    match &link.neighbor {
        Some(named) => {
            named.isd == there.isd && named.autonomous_system == there.autonomous_system
        }
        None => true,
    }
}

/// The same, of the router that the end names.
pub(crate) fn names_end(configs: &[Config], link: &Link, end: &End) -> bool
    ensures { result ≡ agreement.names_end (map router_of configs.now) link.now end.now }
{
    match configs.get(end.router) {
        Some(there) => names(link, there),
        None => false,
    }
}

/// Whether the wire leads from the one link to the other, and each names the AS at its other end rightly,
/// if it names one.
fn are_wired(configs: &[Config], wire: &Wire, out: &Link, into: &Link) -> bool
    ensures { result ≡ agreement.are_wired (map router_of configs.now) wire.now (Some out.now) (Some into.now) }
{
    are_joined(out, into)
        && names_end(configs, out, &wire.other)
        && names_end(configs, into, &wire.one)
}

/// Whether the wire joins two links of these routers.
pub(crate) fn is_wire(configs: &[Config], wire: &Wire) -> bool
    ensures { result ≡ agreement.is_wire (map router_of configs.now) wire.now }
{
    match (link_at(configs, &wire.one), link_at(configs, &wire.other)) {
        (Some(out), Some(into)) => {
            are_wired(configs, wire, out, into) && !same_end(&wire.one, &wire.other)
        }
        _ => false,
    }
}

/// Whether the wires have no end in common.
pub(crate) fn are_apart(one: &Wire, other: &Wire) -> bool
    ensures { result ≡ agreement.are_apart one.now other.now }
{
    !same_end(&one.one, &other.one)
        && !same_end(&one.one, &other.other)
        && !same_end(&one.other, &other.one)
        && !same_end(&one.other, &other.other)
}

/// Whether the wire has no end in common with any other.
pub(crate) fn is_apart(wires: &[Wire], place: usize, wire: &Wire) -> bool
    ensures { result ≡ agreement.is_apart wires.now place wire.now }
{
    wires.iter().enumerate().all(|(other_place, other)| place == other_place
        || are_apart(wire, other))
}

/// Whether no two wires have an end in common.
fn all_apart(wires: &[Wire]) -> bool
    ensures { result ≡ agreement.all_apart wires.now }
{
    wires
        .iter()
        .enumerate()
        .all(|(place, wire)| is_apart(wires, place, wire))
}

/// Whether each wire joins two links of these routers.
fn are_wires(configs: &[Config], wires: &[Wire]) -> bool
    ensures { result ≡ list_all (agreement.is_wire (map router_of configs.now)) wires.now }
{
    wires.iter().all(|wire| is_wire(configs, wire))
}

/// Whether these routers and wires are a net that agrees.
fn are_net(configs: &[Config], wires: &[Wire]) -> bool
    ensures { result ≡ agreement.are_net configs.now wires.now }
{
    routers_agree(configs) && are_wires(configs, wires) && all_apart(wires)
}

/// Whether the net agrees. Routers of one AS have one key, one host port, the same ports for applications
/// on end hosts and the same services, and different internal addresses; no two of them have an interface of one number, and each lists all
/// interfaces of the others as siblings, with the owner's internal address and the kind of its link. A
/// wire joins two links of the net, and a link is on at most one wire; each of both links has the other's
/// local address as its remote one, their kinds are opposite, and if a link names the AS at its other end,
/// it is that of the router there.
pub fn agrees(net: &Net) -> bool
    ensures { IsTrue result ↔ (Agrees (net_of net.now)) }
{
    are_net(net.configs.as_slice(), net.wires.as_slice())
}
