//! The way of a packet from one router of a net to the next.

ghost use Rattle.std.specs.Prelude.{◌≡◌, ◌<◌, ◌≤◌, ◌&&◌, ◌==◌, List, ℕ, IfSome, find, length, map, not, option_map, position};
ghost use Rattle.scion_packet.specs.Header.{front_end, header_of};
ghost use Rattle.net_laws.specs.Net.{end_at, net_of, router_of};
ghost use Rattle.process_packet.specs.Network.{is_local, network, own_link};
ghost use Rattle.net_walks.specs.Stops as stops;

use net_laws::{End, Net, Wire};
use process_packet::{Arrival, Config, Underlay};
use scion_header::{check_header, check_header_as, destination_domain};

/// The path type of a path of one hop.
const ONE_HOP_PATH: u8 = 2;

/// Whether the wire has this end.
fn has_end(end: &End, wire: &Wire) -> bool
    ensures { result ≡ stops.has_end end.now wire.now }
{
    wire.one == *end || wire.other == *end
}

/// Where the wire leads from this end of it.
fn other_end(end: &End, wire: &Wire) -> End
    ensures { result ≡ stops.other_end end.now wire.now }
{
    if wire.one == *end {
        wire.other
    } else {
        wire.one
    }
}

/// The end to which the wire of this end leads.
fn far_end(wires: &[Wire], end: &End) -> Option<End>
    ensures { result ≡ stops.far_end wires.now end.now }
{
    match wires.iter().find(|wire| has_end(end, wire)) {
        Some(wire) => Some(other_end(end, wire)),
        None => None,
    }
}

/// By the wire of a link: to its other end, from the link's local address.
pub(crate) fn over_wire(
    net: &Net,
    router: usize,
    config: &Config,
    out: u16,
) -> Option<(End, Underlay)>
    ensures { (bytes : List ℕ) → option_map (stops.came_so bytes) result
        ≡ stops.over_wire net.now.wires.items router out bytes (own_link (network config.now) out) }
{
    let link = config.own_link(out)?;
    let here = End { router, link: out };
    match far_end(net.wires.as_slice(), &here) {
        Some(end) => Some((end, link.local)),
        None => None,
    }
}

/// Whether the other router is one of this one's AS with this address.
fn has_address(config: &Config, to: &Underlay, other: &Config) -> bool
    ensures { result ≡ stops.has_address (router_of config.now) to.now (router_of other.now) }
{
    config.isd == other.isd
        && config.autonomous_system == other.autonomous_system
        && other.internal == *to
}

/// The router of this one's AS with this address.
fn router_with(configs: &[Config], config: &Config, to: &Underlay) -> Option<usize>
    ensures { result ≡ position (λ (c : Config). stops.has_address (router_of config.now) to.now (router_of c)) configs.now }
{
    configs
        .iter()
        .position(|other| has_address(config, to, other))
}

/// Whether the datagram is for this AS.
fn is_here(config: &Config, bytes: &[u8]) -> bool
    requires addresses { front_end bytes.now ≤ length bytes.now }
    ensures { result ≡ is_local (network config.now) (header_of bytes.now).destination }
{
    let there = destination_domain(bytes);
    there.isd == config.isd && there.autonomous_system == config.autonomous_system
}

/// Whether a datagram is on a path of either kind, and for this AS.
fn comes_home(config: &Config, bytes: &[u8]) -> bool
    ensures { result ≡ (stops.is_headed bytes.now && is_local (network config.now) (header_of bytes.now).destination) }
{
    match check_header(bytes) {
        Ok(_) => is_here(config, bytes),
        Err(_) => match check_header_as(ONE_HOP_PATH, bytes) {
            Ok(_) => is_here(config, bytes),
            Err(_) => false,
        },
    }
}

/// Whether a datagram came from outside and is for this AS: it goes to its host, whose address may be
/// that of a router.
fn is_for_host(config: &Config, link: u16, bytes: &[u8]) -> bool
    ensures { result ≡ stops.is_for_host (network config.now) link bytes.now }
{
    link != 0 && comes_home(config, bytes)
}

/// Within the AS: to the router with the address, from this one's own.
pub(crate) fn within(
    net: &Net,
    config: &Config,
    arrival: &Arrival,
    to: &Underlay,
) -> Option<(End, Underlay)>
    ensures { (router : ℕ) (bytes : List ℕ) → option_map (stops.came_so bytes) result
        ≡ stops.within (map router_of net.now.configs.items) (router_of config.now) (stops.came_to router arrival.entry.now) to.now bytes }
{
    if is_for_host(config, arrival.link, arrival.bytes.as_slice()) {
        return None;
    }
    match router_with(net.configs.as_slice(), config, to) {
        Some(router) => Some((End { router, link: 0 }, config.internal)),
        None => None,
    }
}
