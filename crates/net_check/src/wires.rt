//! The wires between the links of several configurations, by the addresses of the links.

ghost use Rattle.std.specs.Prelude.{◌≡◌, ◌++◌, ◌||◌, IfOk, OnOk, Some, length};
ghost use Rattle.std.specs.List.{list_any, slice_get};
ghost use Rattle.net_check.specs.Wires as wires;
ghost use Rattle.net_laws.specs.Agreement.{same_end};

use net_laws::{End, Net, Wire};
use process_packet::{Config, Link};
use std::alloc::{AllocError, Global};

/// A link of a net.
#[derive(Clone, Copy)]
struct PlacedLink {
    /// Where it is.
    end: End,
    /// What its router is told of it.
    link: Link,
}

/// Adds a router's link.
fn push_link(list: &mut Vec<PlacedLink>, router: usize, link: &Link) -> Result<(), AllocError>
    ensures { OnOk result (list.new.items ≡ list.old.items ++ wires.placed router (Some link.now)) }
{
    let end = End {
        router,
        link: link.id,
    };
    list.push(PlacedLink { end, link: *link })?;
    Ok(())
}

/// Adds a router's link at a place of its list.
fn add_link(
    list: &mut Vec<PlacedLink>,
    router: usize,
    links: &[Link],
    index: usize,
) -> Result<(), AllocError>
    ensures { OnOk result (list.new.items ≡ list.old.items ++ wires.placed router (slice_get links.now index)) }
{
    match links.get(index) {
        Some(link) => push_link(list, router, link),
        None => Ok(()),
    }
}

/// Adds a router's links.
fn add_links(list: &mut Vec<PlacedLink>, router: usize, links: &[Link]) -> Result<(), AllocError>
    ensures { OnOk result (list.new.items ≡ list.old.items ++ wires.of_links router links.now (length links.now)) }
{
    for index in 0..links.len() {
        add_link(list, router, links, index)?;
    }
    Ok(())
}

/// Adds the links of the router at a place.
fn add_router(
    list: &mut Vec<PlacedLink>,
    configs: &[Config],
    router: usize,
) -> Result<(), AllocError>
    ensures { OnOk result (list.new.items ≡ list.old.items ++ wires.of_router router (slice_get configs.now router)) }
{
    match configs.get(router) {
        Some(config) => add_links(list, router, config.links.as_slice()),
        None => Ok(()),
    }
}

/// All links, router by router.
fn links_in(alloc: Global, configs: &[Config]) -> Result<Vec<PlacedLink>, AllocError>
    ensures { IfOk result (λ list. list.items ≡ wires.links_in configs.now (length configs.now)) }
{
    let mut list = Vec::new(alloc);
    for router in 0..configs.len() {
        add_router(&mut list, configs, router)?;
    }
    Ok(list)
}

/// Whether one of the links leads to the other: its remote address is the other's local one.
fn are_paired(one: &Link, other: &Link) -> bool
    ensures { result ≡ wires.are_paired one.now other.now }
{
    one.remote == other.local || other.remote == one.local
}

/// Adds a wire between two links if one leads to the other.
fn add_pair(list: &mut Vec<Wire>, one: &PlacedLink, other: &PlacedLink) -> Result<(), AllocError>
    ensures { OnOk result (list.new.items ≡ list.old.items ++ wires.of_pair one.now other.now) }
{
    if are_paired(&one.link, &other.link) {
        list.push(Wire {
            one: one.end,
            other: other.end,
        })?;
    }
    Ok(())
}

/// Adds a wire between a link and the one at a place if one leads to the other.
fn add_wire_from(
    list: &mut Vec<Wire>,
    links: &[PlacedLink],
    one: &PlacedLink,
    other: usize,
) -> Result<(), AllocError>
    ensures { OnOk result (list.new.items ≡ list.old.items ++ wires.between (Some one.now) (slice_get links.now other)) }
{
    match links.get(other) {
        Some(other) => add_pair(list, one, other),
        None => Ok(()),
    }
}

/// Adds a wire between the links at two places if one leads to the other.
fn add_wire(
    list: &mut Vec<Wire>,
    links: &[PlacedLink],
    one: usize,
    other: usize,
) -> Result<(), AllocError>
    ensures { OnOk result (list.new.items ≡ list.old.items ++ wires.between (slice_get links.now one) (slice_get links.now other)) }
{
    match links.get(one) {
        Some(one) => add_wire_from(list, links, one, other),
        None => Ok(()),
    }
}

/// Adds the wires between the link at a place and those before it.
fn add_wires_before(
    list: &mut Vec<Wire>,
    links: &[PlacedLink],
    place: usize,
) -> Result<(), AllocError>
    ensures { OnOk result (list.new.items ≡ list.old.items ++ wires.below links.now place place) }
{
    for before in 0..place {
        add_wire(list, links, before, place)?;
    }
    Ok(())
}

/// Adds the wires between the link at a place and those before it, and itself.
fn add_wires_of(list: &mut Vec<Wire>, links: &[PlacedLink], place: usize) -> Result<(), AllocError>
    ensures { OnOk result (list.new.items ≡ list.old.items ++ wires.to links.now place) }
{
    add_wires_before(list, links, place)?;
    add_wire(list, links, place, place)
}

/// The wires between these links, link by link.
fn wires_among(alloc: Global, links: &[PlacedLink]) -> Result<Vec<Wire>, AllocError>
    ensures { IfOk result (λ list. list.items ≡ wires.among links.now (length links.now)) }
{
    let mut list = Vec::new(alloc);
    for place in 0..links.len() {
        add_wires_of(&mut list, links, place)?;
    }
    Ok(list)
}

/// The wires between the links of these routers.
fn wires_of(alloc: Global, configs: &[Config]) -> Result<Vec<Wire>, AllocError>
    ensures { IfOk result (λ list. list.items ≡ wires.wires_of configs.now) }
{
    let links = links_in(alloc, configs)?;
    wires_among(alloc, links.as_slice())
}

/// The net of these configurations: a wire joins each two links of which one's remote address is the other's local
/// one, and a link that leads to itself. Each link is held against those before it, router by router.
pub fn net_of_configs(alloc: Global, configs: Vec<Config>) -> Result<Net, AllocError>
    ensures configs { IfOk result (λ net. net.configs.items ≡ configs.items) }
    ensures wires { IfOk result (λ net. net.wires.items ≡ wires.wires_of configs.items) }
{
    let wires = wires_of(alloc, configs.as_slice())?;
    Ok(Net { configs, wires })
}

/// Whether the end is one of the wire.
fn is_end_of(end: &End, wire: &Wire) -> bool
    ensures { result ≡ (same_end wire.now.one end.now || same_end wire.now.other end.now) }
{
    wire.one == *end || wire.other == *end
}

/// Whether a wire leads from the link.
pub fn is_wired(net: &Net, end: &End) -> bool
    ensures { result ≡ list_any (λ w. same_end w.one end.now || same_end w.other end.now) net.now.wires.items }
{
    net.wires.iter().any(|wire| is_end_of(end, wire))
}
