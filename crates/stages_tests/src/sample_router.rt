//! The router that datagrams of tests and benches cross, and its links.

ghost use Rattle.std.specs.Prelude.{◌≡◌, [], ◌∷◌, map, IfOk};
ghost use Rattle.router_rules.specs.Links.{link_count};

use cmac_core::Cmac;
use process_packet::{Bands, Config, Ip, Link, Underlay};
use sample_packets::KEY;
use segment_switch::LinkKind;
use std::alloc::{AllocError, Global};

/// The address 10.NET.0.HOST with a port.
pub fn at(net: u8, host: u8, port: u16) -> Underlay
    ensures { result.port ≡ port }
{
    Underlay {
        ip: Ip::V4([10, net, 0, host]),
        port,
    }
}

/// The link of an interface, whose routers are in a network of its own.
pub fn link(id: u16, net: u8, kind: LinkKind, bands: Bands) -> Link
    ensures id { result.id ≡ id }
    ensures local { result.local.port ≡ 40000 }
    ensures remote { result.remote.port ≡ 40000 }
    ensures bands { result.bands ≡ bands }
{
    Link {
        id,
        kind,
        local: at(net, 1, 40000),
        remote: at(net, 2, 40000),
        bands,
        neighbor: None,
        bfd: false,
    }
}

/// The first datagram's router, of 1-ff00:0:110, with one processor, a parent and a core link, and a child
/// link, link 2, of these bands. It is made without its text: a reader of texts makes each proof above it dear.
pub fn router(alloc: Global, bands: Bands) -> Result<Config, AllocError>
    ensures counts { IfOk result (λ c. (link_count c ≡ 4) × (c.processors ≡ 1)) }
    ensures bands { IfOk result (λ c. map (λ l. l.bands) c.links.items ≡ Bands.One ∷ bands ∷ Bands.One ∷ []) }
{
    let links = vec![in alloc;
        link(1, 1, LinkKind::Parent, Bands::One),
        link(2, 2, LinkKind::Child, bands),
        link(3, 3, LinkKind::Core, Bands::One),
    ]?;
    Ok(Config {
        isd: 1,
        autonomous_system: 0xff00_0000_0110,
        key: Cmac::new(&KEY),
        internal: at(0, 1, 30000),
        internal_bands: Bands::One,
        host_port: 30041,
        dispatched_ports: None,
        processors: 1,
        capacity: 4,
        seed: 0,
        buffers: 64,
        links,
        siblings: Vec::new(alloc),
        services: Vec::new(alloc),
    })
}
