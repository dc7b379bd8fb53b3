//! Why a net doesn't agree: the first thing in it that doesn't fit.

ghost use Rattle.std.specs.Prelude.{◌≡◌, IfNone, IfSome, Some, find, map, not, option_copied};
ghost use Rattle.std.specs.List.{slice_get};
ghost use Rattle.net_laws.specs.Agreement as agreement;
ghost use Rattle.net_laws.specs.Misfit.{IsFirst};
ghost use Rattle.net_laws.specs.MisfitSearch as search_for;
ghost use Rattle.net_laws.specs.Net.{Agrees, net_of, router_of};
ghost use Rattle.process_packet.specs.Network.{network};

use crate::agreement::{
    agree_as, agrees_with, are_apart, are_opposite, has_service, is_apart, is_wire, link_at, lists,
    names_end, same_end, same_kind, same_ports,
};
use crate::net::{Net, Wire};
use process_packet::{Config, Link, Service, Sibling, Underlay};

/// What doesn't fit between a router and another one of its AS.
#[derive(Clone, Copy, PartialEq, Eq)]
pub enum Difference {
    /// They have different forwarding keys.
    Key,
    /// They have different host ports.
    HostPort,
    /// They have different ports for applications on end hosts, or one has some and the other none.
    DispatchedPorts,
    /// The router has a service of this number that the other one doesn't have at the same address.
    Service(u16),
    /// They have one internal address.
    Internal,
    /// Both have a link of this number.
    SameInterface(u16),
    /// The router lists no interface of this number, which is that of a link of the other one.
    Unlisted(u16),
    /// The router lists it at another address than the other one's.
    Elsewhere(u16),
    /// The router lists it as of another kind.
    OtherKind(u16),
}

/// Why a wire doesn't lead from one link to another.
#[derive(Clone, Copy, PartialEq, Eq)]
pub enum Mismatch {
    /// An end of it is no link.
    NoLink,
    /// Both ends of it are one link.
    SameEnd,
    /// The remote address at its first end isn't the local one at the other end.
    Remote,
    /// The remote address at the other end isn't the local one at the first end.
    RemoteBack,
    /// The ends don't see each other as opposite kinds.
    Kinds,
    /// The first end names another AS than that at the other end.
    Neighbor,
    /// The other end names another AS than that at the first end.
    NeighborBack,
}

/// What doesn't fit in a net.
#[derive(Clone, Copy)]
pub enum Misfit {
    /// Two routers of one AS, by their places among the net's configurations.
    Routers {
        one: usize,
        other: usize,
        what: Difference,
    },
    /// A wire and its ends.
    Wire {
        wire: Wire,
        what: Mismatch,
    },
    /// Two wires with an end in common.
    Shared {
        one: Wire,
        other: Wire,
    },
}

/// What is wrong with the entry that the router has for a link of a router at this address.
fn of_entry(entry: &Sibling, at: &Underlay, link: &Link) -> Option<Difference>
    ensures { result ≡ search_for.of_entry at.now link.now (Some entry.now) }
{
    if entry.at != *at {
        return Some(Difference::Elsewhere(link.id));
    }
    if same_kind(entry.kind, link.kind) {
        None
    } else {
        Some(Difference::OtherKind(link.id))
    }
}

/// What is wrong with how the router lists a link of the other one.
fn of_listing(config: &Config, other: &Config, link: &Link) -> Option<Difference>
    ensures { result ≡ search_for.of_listing (network config.now) other.now.internal link.now }
{
    if config.own_link(link.id).is_some() {
        return Some(Difference::SameInterface(link.id));
    }
    match config.sibling(link.id) {
        Some(entry) => of_entry(entry, &other.internal, link),
        None => Some(Difference::Unlisted(link.id)),
    }
}

/// The first link of the other router that the router doesn't list rightly.
fn first_unlisted<'a>(config: &Config, other: &'a Config) -> Option<&'a Link>
    ensures { option_copied result
        ≡ find (λ l. not (agreement.lists (network config.now) other.now.internal l)) other.now.links.items }
{
    other.links.iter().find(|link| !lists(config, other, link))
}

/// What doesn't fit between the addresses and the interfaces of two routers of one AS.
fn of_neighbours(config: &Config, other: &Config) -> Option<Difference>
    ensures { result ≡ search_for.of_neighbours (router_of config.now) (router_of other.now) }
{
    if config.internal == other.internal {
        return Some(Difference::Internal);
    }
    match first_unlisted(config, other) {
        Some(link) => of_listing(config, other, link),
        None => None,
    }
}

/// The first service of the router that the other one doesn't have.
fn first_unshared<'a>(config: &'a Config, other: &Config) -> Option<&'a Service>
    ensures { option_copied result
        ≡ find (λ s. not (agreement.has_service other.now.services.items s)) config.now.services.items }
{
    config
        .services
        .iter()
        .find(|service| !has_service(other, service))
}

/// What doesn't fit between the services, addresses and interfaces of two routers of one AS, or of one and itself.
fn of_lists(same: bool, config: &Config, other: &Config) -> Option<Difference>
    ensures { result ≡ search_for.of_lists same (router_of config.now) (router_of other.now) }
{
    match first_unshared(config, other) {
        Some(service) => Some(Difference::Service(service.number)),
        None => {
            if same {
                None
            } else {
                of_neighbours(config, other)
            }
        }
    }
}

/// What doesn't fit between two routers of one AS, or one and itself.
fn difference_of(same: bool, config: &Config, other: &Config) -> Option<Difference>
    ensures { result ≡ search_for.of_two same (router_of config.now) (router_of other.now) }
{
    if !config.key.has_same_key(&other.key) {
        return Some(Difference::Key);
    }
    if config.host_port != other.host_port {
        return Some(Difference::HostPort);
    }
    if !same_ports(&config.dispatched_ports, &other.dispatched_ports) {
        return Some(Difference::DispatchedPorts);
    }
    of_lists(same, config, other)
}

/// The place of the first router that doesn't agree with each of its AS.
fn first_router(configs: &[Config]) -> Option<usize>
    ensures { result ≡ search_for.first_router configs.now }
{
    configs
        .iter()
        .enumerate()
        .position(|(place, config)| !agrees_with(configs, place, config))
}

/// The place of the first router with which the one at a place doesn't agree.
fn first_other(configs: &[Config], router: usize, config: &Config) -> Option<usize>
    ensures { result ≡ search_for.first_other configs.now router config.now }
{
    configs
        .iter()
        .enumerate()
        .position(|(place, other)| !agree_as(router, place, config, other))
}

/// What doesn't fit between the routers at two places, of which the first one is this.
fn of_pair(configs: &[Config], one: usize, other: usize, config: &Config) -> Option<Misfit>
    ensures { result ≡ search_for.of_pair one other config.now (slice_get configs.now other) }
{
    match configs.get(other) {
        Some(there) => match difference_of(one == other, config, there) {
            Some(what) => Some(Misfit::Routers { one, other, what }),
            None => None,
        },
        None => None,
    }
}

/// The first thing that doesn't fit between the router at a place and the others of its AS.
fn of_router(configs: &[Config], one: usize) -> Option<Misfit>
    ensures { result ≡ search_for.of_router configs.now one (slice_get configs.now one) }
{
    match configs.get(one) {
        Some(config) => match first_other(configs, one, config) {
            Some(other) => of_pair(configs, one, other, config),
            None => None,
        },
        None => None,
    }
}

/// The first thing that doesn't fit between routers of one AS.
fn of_routers(configs: &[Config]) -> Option<Misfit>
    ensures { result ≡ search_for.of_routers configs.now }
{
    match first_router(configs) {
        Some(one) => of_router(configs, one),
        None => None,
    }
}

/// Why the wire doesn't lead from the one link to the other.
fn mismatch_of(configs: &[Config], wire: &Wire, out: &Link, into: &Link) -> Option<Mismatch>
    ensures { result ≡ search_for.of_ends (map router_of configs.now) wire.now (Some out.now) (Some into.now) }
{
    if same_end(&wire.one, &wire.other) {
        return Some(Mismatch::SameEnd);
    }
    if out.remote != into.local {
        return Some(Mismatch::Remote);
    }
    if into.remote != out.local {
        return Some(Mismatch::RemoteBack);
    }
    if !are_opposite(out.kind, into.kind) {
        return Some(Mismatch::Kinds);
    }
    if !names_end(configs, out, &wire.other) {
        return Some(Mismatch::Neighbor);
    }
    if names_end(configs, into, &wire.one) {
        None
    } else {
        Some(Mismatch::NeighborBack)
    }
}

/// Why the wire doesn't join two links of these routers.
fn of_wire(configs: &[Config], wire: &Wire) -> Option<Mismatch>
    ensures { result ≡ search_for.of_wire (map router_of configs.now) wire.now }
{
    match (link_at(configs, &wire.one), link_at(configs, &wire.other)) {
        (Some(out), Some(into)) => mismatch_of(configs, wire, out, into),
        _ => Some(Mismatch::NoLink),
    }
}

/// The first wire that doesn't join two links of these routers.
fn first_broken<'a>(configs: &[Config], wires: &'a [Wire]) -> Option<&'a Wire>
    ensures { option_copied result ≡ find (λ w. not (agreement.is_wire (map router_of configs.now) w)) wires.now }
{
    wires.iter().find(|wire| !is_wire(configs, wire))
}

/// The first thing that doesn't fit between the ends of a wire.
fn of_wires(configs: &[Config], wires: &[Wire]) -> Option<Misfit>
    ensures { result ≡ search_for.of_wires configs.now wires.now }
{
    match first_broken(configs, wires) {
        Some(wire) => match of_wire(configs, wire) {
            Some(what) => Some(Misfit::Wire { wire: *wire, what }),
            None => None,
        },
        None => None,
    }
}

/// The place of the first wire that has an end in common with another one.
fn first_sharing(wires: &[Wire]) -> Option<usize>
    ensures { result ≡ search_for.first_sharing wires.now }
{
    wires
        .iter()
        .enumerate()
        .position(|(place, wire)| !is_apart(wires, place, wire))
}

/// Whether the wires at these places have no end in common, or are one.
fn are_apart_as(one: usize, other: usize, wire: &Wire, there: &Wire) -> bool
    ensures { result ≡ search_for.are_apart_as one other wire.now there.now }
{
    one == other || are_apart(wire, there)
}

/// The place of the first wire with which the one at a place has an end in common.
fn first_shared(wires: &[Wire], one: usize, wire: &Wire) -> Option<usize>
    ensures { result ≡ search_for.first_shared wires.now one wire.now }
{
    wires
        .iter()
        .enumerate()
        .position(|(place, other)| !are_apart_as(one, place, wire, other))
}

/// The wire at a place, and the first one with which it has an end in common.
fn of_sharing(wires: &[Wire], one: usize, wire: &Wire) -> Option<Misfit>
    ensures { result ≡ search_for.of_sharing wires.now one (Some wire.now) }
{
    match first_shared(wires, one, wire) {
        Some(place) => match wires.get(place) {
            Some(other) => Some(Misfit::Shared {
                one: *wire,
                other: *other,
            }),
            None => None,
        },
        None => None,
    }
}

/// The first two wires that have an end in common.
fn of_shared(wires: &[Wire]) -> Option<Misfit>
    ensures { result ≡ search_for.of_shared wires.now }
{
    match first_sharing(wires) {
        Some(place) => match wires.get(place) {
            Some(wire) => of_sharing(wires, place, wire),
            None => None,
        },
        None => None,
    }
}

/// The first thing that doesn't fit in the net of these routers and wires.
fn of_net(configs: &[Config], wires: &[Wire]) -> Option<Misfit>
    ensures { result ≡ search_for.of_net configs.now wires.now }
{
    match of_routers(configs) {
        Some(misfit) => Some(misfit),
        None => match of_wires(configs, wires) {
            Some(misfit) => Some(misfit),
            None => of_shared(wires),
        },
    }
}

/// The first thing that doesn't fit in a net; none where the net agrees, and only there.
///
/// First each router is held against each of its AS, in the order of their places: the key, the host port, the ports
/// for applications on end hosts, the router's services, the addresses, and the other one's links. Then come the
/// wires in their order: the ends, the addresses, the kinds, and the ASes that are named. Last each wire is held
/// against each other one.
pub fn misfit_of(net: &Net) -> Option<Misfit>
    ensures none { IfNone result (Agrees (net_of net.now)) }
    ensures first { IfSome result (IsFirst (net_of net.now)) }
    ensures refused { IfSome result (λ _. ¬ Agrees (net_of net.now)) }
{
    of_net(net.configs.as_slice(), net.wires.as_slice())
}
