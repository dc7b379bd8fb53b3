//! The links as they are looked up for each packet.

ghost use Rattle.std.specs.Prelude.{◌≡◌};
ghost use Rattle.process_packet.specs.declared.config.Config.{Config as Configured};
ghost use Rattle.router_rules.specs.Links.{has_two_bands, interface_at, link_count, link_index};
ghost use Rattle.router_rules.specs.Ports.{IsPortsOf};

use crate::index::LinkIndex;
use crate::interface::Interface;
use crate::links::{has_two_bands, interface_at, link_count};
use process_packet::Config;
use std::marker::Model;

/// The links of a router by their indices: their interfaces, which ascend, and whether each has two
/// bands. It is made once of a configuration, which would rank all its links for each that is looked up.
#[derive(Drop)]
pub struct Ports {
    interfaces: [u16; 33],
    two_bands: [bool; 33],
    count: usize,
}

impl Model for Ports {
    ghost use Rattle.std.specs.Prelude.{◌≤◌, take};
    ghost use Rattle.router_rules.specs.Ports.{Lines};

    ghost Value = { Lines };

    ghost view = { λ p. record { interfaces = take p.count p.interfaces; two_bands = take p.count p.two_bands } };

    ghost invariant = { λ p. p.count ≤ 33 };
}

impl Ports {
    /// The links of a configuration.
    pub fn of(config: &Config) -> Ports
        ensures { IsPortsOf config.now result }
    {
        let mut interfaces = [0; 33];
        let mut two_bands = [false; 33];
        let count = link_count(config);
        for link in 0..count {
            interfaces[link] = interface_at(config, link);
            two_bands[link] = has_two_bands(config, link as u16);
        }
        Ports {
            interfaces,
            two_bands,
            count,
        }
    }

    /// How many links there are, the internal network among them.
    pub fn count(&self) -> usize
        ensures { (c : Configured) → IsPortsOf c self.now → result ≡ link_count c }
    {
        self.count
    }

    // The place of this interface; `count` where it has none.
    fn place_of(&self, id: u16) -> u16
        ensures { (c : Configured) → IsPortsOf c self.now → result ≡ link_index c id }
    {
        match self.interfaces[..self.count].binary_search(&id) {
            Ok(place) => place as u16,
            Err(_) => self.count as u16,
        }
    }

    /// The index of the link with this interface; `count` where there is none.
    pub fn index(&self, interface: Interface) -> LinkIndex
        ensures { (c : Configured) → IsPortsOf c self.now → result ≡ link_index c interface }
    {
        LinkIndex::of(self.place_of(interface.id()))
    }

    /// The interface of the link with this index; 0 where there is none.
    pub fn interface(&self, link: LinkIndex) -> Interface
        ensures { (c : Configured) → IsPortsOf c self.now → result ≡ interface_at c link }
    {
        let at = link.place();
        if at < self.count {
            Interface::of(self.interfaces[at])
        } else {
            Interface::of(0)
        }
    }

    /// Whether the link with this index has two bands.
    pub fn two_bands(&self, link: LinkIndex) -> bool
        ensures { (c : Configured) → IsPortsOf c self.now → result ≡ has_two_bands c link }
    {
        let at = link.place();
        at < self.count && self.two_bands[at]
    }
}
