//! The border router that decides: three links, two of which carry one-hop paths, one other router, one service.

ghost use Rattle.std.specs.Prelude.{◌≡◌};

use cmac_core::Cmac;
use process_packet::{Bands, Config, Ip, Link, Service, Sibling, Underlay};
use sample_packets::KEY;
use scion_header::Domain;
use segment_switch::LinkKind;
use std::alloc::{AllocError, Global};

/// The address 10.NET.0.HOST with a port.
fn at(net: u8, host: u8, port: u16) -> Underlay
    ensures { result.port ≡ port }
{
    Underlay {
        ip: Ip::V4([10, net, 0, host]),
        port,
    }
}

/// The AS 1-ff00:0:110, and those after it.
fn domain(after: u8) -> Domain {
    Domain {
        isd: 1,
        autonomous_system: 0xff00_0000_0110 + u64::from(after),
    }
}

/// The link with this number, whose two ends are in the network of that number.
fn link(id: u8, kind: LinkKind, neighbor: Option<Domain>) -> Link
    ensures id { result.id ≡ id }
    ensures local { result.local.port ≡ 40000 }
    ensures remote { result.remote.port ≡ 40000 }
{
    Link {
        id: u16::from(id),
        kind,
        local: at(id, 1, 40000),
        remote: at(id, 2, 40000),
        bands: Bands::One,
        neighbor,
        bfd: false,
    }
}

/// The configuration of 1-ff00:0:110.
pub(crate) fn border(alloc: Global) -> Result<Config, AllocError> {
    let links = vec![in alloc;
        link(1, LinkKind::Parent, Some(domain(1))),
        link(2, LinkKind::Child, Some(domain(2))),
        link(3, LinkKind::Core, None),
    ]?;
    let siblings = vec![in alloc;
        Sibling {
            id: 4,
            kind: LinkKind::Child,
            at: at(0, 2, 30000),
        },
    ]?;
    let services = vec![in alloc;
        Service {
            number: 2,
            at: at(0, 9, 30252),
        },
    ]?;
    Ok(Config {
        isd: 1,
        autonomous_system: 0xff00_0000_0110,
        key: Cmac::new(&KEY),
        internal: at(0, 1, 30000),
        internal_bands: Bands::One,
        host_port: 30041,
        dispatched_ports: None,
        processors: 1,
        capacity: 4,
        seed: 0,
        buffers: 64,
        links,
        siblings,
        services,
    })
}
