//! The rules' links, and what a receiver refuses by them, of a configuration that is made by hand.

use crate::sample_router::{at, link};
use cmac_core::Cmac;
use process_packet::{Bands, Cause, Config, LONGEST_DATAGRAM};
use router_rules::{
    Interface, LinkIndex, Ports, Shared, has_two_bands, inspect, interface_at, is_urgent,
    link_count, link_index, processor_or_fault,
};
use segment_switch::LinkKind;
use std::alloc::{AllocError, Global};
use std::test::*;

/// One byte more than a receiver takes.
const TOO_LONG: usize = LONGEST_DATAGRAM + 1;

/// The router of 1-ff00:0:110 with three links, not in the order of their interfaces; one of them has
/// two bands.
fn config(alloc: Global, internal_bands: Bands) -> Result<Config, AllocError> {
    let links = vec![in alloc;
        link(7, 1, LinkKind::Core, Bands::One),
        link(2, 2, LinkKind::Core, Bands::Two),
        link(300, 3, LinkKind::Core, Bands::One),
    ]?;
    Ok(Config {
        isd: 1,
        autonomous_system: 0xff00_0000_0110,
        key: Cmac::new(&[0; 16]),
        internal: at(0, 1, 30000),
        internal_bands,
        host_port: 30041,
        dispatched_ports: None,
        processors: 1,
        capacity: 4,
        seed: 0,
        buffers: 64,
        links,
        siblings: Vec::new(alloc),
        services: Vec::new(alloc),
    })
}

/// Whether the link of an interface has this place among all links.
fn stands_at(config: &Config, index: u16, id: u16) -> bool {
    link_index(config, id) == index && interface_at(config, usize::from(index)) == id
}

/// Whether the links stand in the order of their interfaces, the internal network's first, and no link
/// is found where there is none.
fn stand_in_order(config: &Config) -> bool {
    link_count(config) == 4
        && stands_at(config, 0, 0)
        && stands_at(config, 1, 2)
        && stands_at(config, 2, 7)
        && stands_at(config, 3, 300)
        && [1, 3, 299, 301, u16::MAX]
            .iter()
            .all(|id| link_index(config, *id) == 4)
        && interface_at(config, 4) == 0
        && interface_at(config, usize::MAX) == 0
}

#[test]
fn numbers_links_by_their_interfaces(rt: HostRuntime) {
    let config = config(rt.alloc(), Bands::One).expect(&rt, "memory");
    assert!(rt; stand_in_order(&config));
}

/// Whether the internal network has these bands, link 2 has two, and the others have one.
fn are_banded(config: &Config, internal: Bands) -> bool {
    has_two_bands(config, 0) == (internal == Bands::Two)
        && has_two_bands(config, 1)
        && !has_two_bands(config, 2)
        && !has_two_bands(config, 3)
        && !has_two_bands(config, 4)
}

#[test]
fn tells_links_of_two_bands(rt: HostRuntime) {
    for internal in [Bands::One, Bands::Two] {
        let config = config(rt.alloc(), internal).expect(&rt, "memory");
        assert!(rt; are_banded(&config, internal));
    }
}

/// Whether the tables tell this place, interface and bands of one link.
fn is_told(ports: &Ports, index: u16, id: u16, two_bands: bool) -> bool {
    let link = LinkIndex::of(index);
    ports.index(Interface::of(id)).place() == usize::from(index)
        && ports.interface(link).id() == id
        && ports.two_bands(link) == two_bands
}

/// Whether the tables tell the links, and nothing of links that there are not.
fn are_told(ports: &Ports) -> bool {
    ports.count() == 4
        && is_told(ports, 0, 0, false)
        && is_told(ports, 1, 2, true)
        && is_told(ports, 2, 7, false)
        && is_told(ports, 3, 300, false)
        && [1, 3, 299, 301, u16::MAX]
            .iter()
            .all(|id| ports.index(Interface::of(*id)).place() == 4)
        && [4, u16::MAX].iter().all(|index| ports.interface(LinkIndex::of(*index)).id() == 0
            && !ports.two_bands(LinkIndex::of(*index)))
}

#[test]
fn looks_links_up(rt: HostRuntime) {
    let shared = Shared::new(config(rt.alloc(), Bands::One).expect(&rt, "memory"));
    assert!(rt; are_told(&shared.ports));
    assert!(rt; shared.config.links.len() == 3);
}

/// A header that its addresses fill, of the urgent traffic class.
const URGENT: [u8; 36] = *b"\x0b\x80\x00\x01\x11\x09\x00\x08\x01\x00\x00\x00\
    \x00\x01\xff\x00\x00\x00\x01\x12\x00\x01\xff\x00\x00\x00\x01\x11\x0a\x02\x00\x07\x0a\x01\x00\x05";

/// Whether a receiver of this router refuses what it has to, and finds the processor of what it takes.
fn is_inspected(config: &Config) -> bool {
    inspect(config, 0, &URGENT) == None
        && processor_or_fault(config, 0, &URGENT) == Ok(1)
        && inspect(config, 0, &URGENT[..35]) == Some(Cause::Short)
        && processor_or_fault(config, 0, &URGENT[..35]) == Err(Cause::Short)
        && inspect(config, 0, &[0; TOO_LONG]) == Some(Cause::TooLong)
}

#[test]
fn tells_what_a_receiver_refuses(rt: HostRuntime) {
    let mut config = config(rt.alloc(), Bands::One).expect(&rt, "memory");
    config.processors = 2;
    config.seed = 1;
    assert!(rt; is_inspected(&config));
    assert!(rt; is_urgent(&URGENT) && !is_urgent(&[0; 36]));
}
