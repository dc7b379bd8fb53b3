//! The links of a router, numbered from 0 in ascending order of their interfaces.

ghost use Rattle.std.specs.Prelude.{◌≡◌, ◌==◌, ◌&&◌, ◌≤◌, length, map, nat_lt};
ghost use Rattle.std.specs.List.{find, list_any};
ghost use Rattle.order_laws.specs.Counts.{count};
ghost use Rattle.process_packet.specs.Neighbours.{are_two, link_id};
ghost use Rattle.router_rules.specs.Links.{has_two_bands, interface_at, link_count, link_index};

use process_packet::{Config, Link};

/// How many links the router has, the internal network among them: 2 to 33.
pub fn link_count(config: &Config) -> usize
    ensures count { result ≡ link_count config.now }
    ensures few { result ≤ 33 }
{
    config.links.len() + 1
}

/// How many of the links have a smaller interface.
fn smaller(links: &[Link], id: u16) -> usize
    ensures count { result ≡ count (λ k. nat_lt k id) (map link_id links.now) }
    ensures few { result ≤ length links.now }
{
    links
        .iter()
        .map(|link| link.id)
        .filter(|other| *other < id)
        .count()
}

/// How many of the interfaces are smaller, that of the internal network among them.
fn rank(config: &Config, id: u16) -> usize
    ensures rank { result ≡ Rattle.router_rules.specs.Links.rank config.now id }
    ensures few { result ≤ 33 }
{
    let links = smaller(config.links.as_slice(), id);
    if id == 0 { links } else { links + 1 }
}

/// The index of the link with this interface, from 0 on; `link_count` where there is none.
pub fn link_index(config: &Config, id: u16) -> u16
    ensures index { result ≡ link_index config.now id }
    ensures few { result ≤ 33 }
{
    let index = if config.has_link(id) {
        rank(config, id)
    } else {
        link_count(config)
    };
    index as u16
}

/// The interface of the link of this number to another AS.
fn external_interface_at(config: &Config, index: usize) -> Option<u16>
    ensures { result ≡ find (λ id. Rattle.router_rules.specs.Links.rank config.now id == index) (map link_id config.now.links.items) }
{
    config
        .links
        .iter()
        .map(|link| link.id)
        .find(|id| rank(config, *id) == index)
}

/// The interface of the link with this number; 0 where there is none.
pub fn interface_at(config: &Config, index: usize) -> u16
    ensures { result ≡ interface_at config.now index }
{
    if index == 0 {
        return 0;
    }
    external_interface_at(config, index).unwrap_or(0)
}

/// Whether the link of this number to another AS has two bands.
fn external_has_two_bands(config: &Config, index: u16) -> bool
    ensures { result ≡ list_any (λ k. Rattle.router_rules.specs.Links.rank config.now k.id == index && are_two k.bands) config.now.links.items }
{
    config.links.iter().any(|link| rank(config, link.id) == usize::from(index)
        && link.bands.are_two())
}

/// Whether the link with this number has two bands.
pub fn has_two_bands(config: &Config, index: u16) -> bool
    ensures { result ≡ has_two_bands config.now index }
{
    index == 0 && config.internal_bands.are_two() || external_has_two_bands(config, index)
}
