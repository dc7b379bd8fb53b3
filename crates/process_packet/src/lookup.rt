//! Look-ups in the configuration.

ghost use Rattle.std.specs.Prelude.{◌≡◌, ◌==◌, ◌&&◌, ◌||◌, None, is_some, map, option_copied, option_map, ◌≤◌, length};
ghost use Rattle.std.specs.List.{list_any};
ghost use Rattle.process_packet.specs.Neighbours.{are_two, is_banded, is_neighbored, link_bands, link_kind, service_at};
ghost use Rattle.process_packet.specs.Exit.{exit_of};
ghost use Rattle.process_packet.specs.LinkControl.{answers_bfd};
ghost use Rattle.process_packet.specs.Network.{has_link, is_local, is_neighbor, is_owner, is_remote, neighbor, network, own_link, service, sibling, takes_one_hop};
ghost use Rattle.scion_packet.specs.Header.{HostAddress, front_end, header_of};

use crate::config::Config;
use crate::exit::Exit;
use crate::neighbours::{Link, Service, Sibling};
use crate::underlay::Underlay;
use scion_header::{Domain, destination_domain, source_domain};
use segment_switch::LinkKind;

/// Whether one of the links has two bands.
fn some_are_two(links: &[Link]) -> bool
    ensures { result ≡ list_any are_two (map link_bands links.now) }
{
    links
        .iter()
        .map(|link| link.bands)
        .any(|bands| bands.are_two())
}

/// Whether one-hop paths are carried over one of the links.
fn some_is_neighbored(links: &[Link]) -> bool
    ensures { result ≡ list_any is_neighbored links.now }
{
    links.iter().any(|link| link.neighbor.is_some())
}

impl Config {
    /// Whether the number is that of a link of this router or, as 0, of the internal network.
    pub fn has_link(&self, link: u16) -> bool
        ensures { result ≡ has_link (network self.now) link }
    {
        link == 0 || self.own_link(link).is_some()
    }

    /// Whether some link, or the internal network, has two bands.
    pub fn banded(&self) -> bool
        ensures { result ≡ is_banded self.now.internal_bands self.now.links.items }
    {
        self.internal_bands.are_two() || some_are_two(self.links.as_slice())
    }

    /// The link of this router with a number.
    pub fn own_link(&self, id: u16) -> Option<&Link>
        ensures { option_copied result ≡ own_link (network self.now) id }
    {
        self.links.iter().find(|link| link.id == id)
    }

    /// The interface of another router of this AS with a number.
    pub fn sibling(&self, id: u16) -> Option<&Sibling>
        ensures { option_copied result ≡ sibling (network self.now) id }
    {
        self.siblings.iter().find(|sibling| sibling.id == id)
    }

    /// The service with a number.
    fn service(&self, number: u16) -> Option<&Service>
        ensures { option_copied result ≡ service (network self.now) number }
    {
        self.services
            .iter()
            .find(|service| service.number == number)
    }

    /// What the AS at the end of this router's link is.
    pub(crate) fn link_kind(&self, id: u16) -> Option<LinkKind>
        ensures { result ≡ option_map link_kind (own_link (network self.now) id) }
    {
        self.own_link(id).map(|link| link.kind)
    }

    /// The way out by an interface of this AS.
    pub(crate) fn exit(&self, id: u16) -> Option<Exit>
        ensures { result ≡ exit_of (network self.now) id }
    {
        match self.own_link(id) {
            Some(link) => Some(Exit::Own(link.kind)),
            None => match self.sibling(id) {
                Some(sibling) => Some(Exit::OfSibling(sibling.kind, sibling.at)),
                None => None,
            },
        }
    }

    /// Where a service of this AS is.
    pub(crate) fn service_at(&self, number: u16) -> Option<Underlay>
        ensures { result ≡ option_map service_at (service (network self.now) number) }
    {
        self.service(number).map(|service| service.at)
    }

    /// Whether the datagram came from the other end of this router's link.
    pub(crate) fn is_remote(&self, link: u16, source: &Underlay) -> bool
        ensures { result ≡ is_remote (own_link (network self.now) link) source.now }
    {
        match self.own_link(link) {
            Some(link) => source.is_same(&link.remote),
            None => false,
        }
    }

    /// Whether the datagram came from the router of this AS that owns the interface.
    pub(crate) fn is_owner(&self, interface: u16, source: &Underlay) -> bool
        ensures { result ≡ is_owner (sibling (network self.now) interface) source.now }
    {
        match self.sibling(interface) {
            Some(sibling) => source.ip.is_same(&sibling.at.ip),
            None => false,
        }
    }

    /// The AS at the other end of this router's link, if one-hop paths are carried over the link.
    pub(crate) fn neighbor(&self, link: u16) -> Option<Domain>
        ensures { result ≡ neighbor (network self.now) link }
    {
        match self.own_link(link) {
            Some(link) => link.neighbor,
            None => None,
        }
    }

    /// Whether BFD control packets that come by this router's link are answered.
    pub(crate) fn answers_bfd(&self, link: u16) -> bool
        ensures { result ≡ answers_bfd (own_link (network self.now) link) }
    {
        match self.own_link(link) {
            Some(link) => link.bfd,
            None => false,
        }
    }

    /// Whether one-hop paths are taken from a link: they are carried over it or, for the internal network, over some
    /// link.
    pub(crate) fn takes_one_hop(&self, link: u16) -> bool
        ensures { result ≡ takes_one_hop (network self.now) link }
    {
        if link == 0 {
            some_is_neighbored(self.links.as_slice())
        } else {
            self.neighbor(link).is_some()
        }
    }

    /// Whether the AS is the one at the other end of this router's link, over which one-hop paths are carried.
    fn is_there(&self, link: u16, domain: Domain) -> bool
        ensures { (a : HostAddress) → a.isd ≡ domain.isd → a.autonomous_system ≡ domain.autonomous_system
            → result ≡ is_neighbor (neighbor (network self.now) link) a }
    {
        match self.neighbor(link) {
            Some(there) => {
                domain.isd == there.isd && domain.autonomous_system == there.autonomous_system
            }
            None => false,
        }
    }

    /// Whether the source of a datagram is in the AS at the link's other end.
    pub(crate) fn is_source_neighbor(&self, link: u16, bytes: &[u8]) -> bool
        requires addresses { front_end bytes.now ≤ length bytes.now }
        ensures { result ≡ is_neighbor (neighbor (network self.now) link) (header_of bytes.now).source }
    {
        self.is_there(link, source_domain(bytes))
    }

    /// Whether its destination is.
    pub(crate) fn is_destination_neighbor(&self, link: u16, bytes: &[u8]) -> bool
        requires addresses { front_end bytes.now ≤ length bytes.now }
        ensures { result ≡ is_neighbor (neighbor (network self.now) link) (header_of bytes.now).destination }
    {
        self.is_there(link, destination_domain(bytes))
    }

    /// Whether the AS is this one.
    fn is_here(&self, domain: Domain) -> bool
        ensures { result ≡ (domain.isd == self.now.isd && domain.autonomous_system == self.now.autonomous_system) }
    {
        domain.isd == self.isd && domain.autonomous_system == self.autonomous_system
    }

    /// Whether the source of a datagram is in this AS.
    pub(crate) fn is_source_local(&self, bytes: &[u8]) -> bool
        requires addresses { front_end bytes.now ≤ length bytes.now }
        ensures { result ≡ is_local (network self.now) (header_of bytes.now).source }
    {
        self.is_here(source_domain(bytes))
    }

    /// Whether its destination is.
    pub(crate) fn is_destination_local(&self, bytes: &[u8]) -> bool
        requires addresses { front_end bytes.now ≤ length bytes.now }
        ensures { result ≡ is_local (network self.now) (header_of bytes.now).destination }
    {
        self.is_here(destination_domain(bytes))
    }
}
