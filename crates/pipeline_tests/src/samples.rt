//! What the tests carry, and the router that it crosses.

use crate::arrivals::arrival;
use cmac_core::Cmac;
use pipe_model::World;
use process_packet::{Bands, Config, Ip, Link, NoMemory, Underlay};
use router_rules::{link_count, link_index};
use sample_packets::{FIRST, IN_TIME, KEY, PATH_AT, with_bytes};
use segment_switch::LinkKind;
use std::alloc::{AllocError, Global};

/// A datagram that comes by link 1, and the second at which it does.
pub type Coming<'a> = (u64, &'a [u8]);

/// The first datagram, which leaves by link 2.
pub const LEAVES: Coming<'static> = (IN_TIME, &FIRST);

/// The same, once its hop field has expired: it is answered.
pub const EXPIRED: Coming<'static> = (1694999999, &FIRST);

/// The router of 1-ff00:0:110 with a parent link, a child link of these bands, and pipes that hold one
/// packet.
fn config(alloc: Global, bands: Bands) -> Result<Config, AllocError> {
    let links = [
        Link {
            id: 1,
            kind: LinkKind::Parent,
            local: Underlay {
                ip: Ip::V4([10, 1, 0, 1]),
                port: 40000,
            },
            remote: Underlay {
                ip: Ip::V4([10, 1, 0, 2]),
                port: 40000,
            },
            bands: Bands::One,
            neighbor: None,
            bfd: false,
        },
        Link {
            id: 2,
            kind: LinkKind::Child,
            local: Underlay {
                ip: Ip::V4([10, 2, 0, 1]),
                port: 40000,
            },
            remote: Underlay {
                ip: Ip::V4([10, 2, 0, 2]),
                port: 40000,
            },
            bands,
            neighbor: None,
            bfd: false,
        },
    ];
    Ok(Config {
        isd: 1,
        autonomous_system: 0xff00_0000_0110,
        key: Cmac::new(&KEY),
        internal: Underlay {
            ip: Ip::V4([10, 0, 0, 1]),
            port: 30000,
        },
        internal_bands: Bands::One,
        host_port: 30041,
        dispatched_ports: None,
        processors: 2,
        capacity: 1,
        seed: 0,
        buffers: 64,
        links: Vec::from_array(alloc, links)?,
        siblings: Vec::new(alloc),
        services: Vec::new(alloc),
    })
}

/// The pipeline of this router before two datagrams that come by link 1.
pub fn pipeline(
    alloc: Global,
    bands: Bands,
    first: Coming,
    second: Coming,
) -> Result<World, NoMemory> {
    let Ok(config) = config(alloc, bands) else {
        return Err(NoMemory);
    };
    let (Ok(one), Ok(two)) = (
        arrival(alloc, 1, first.0, first.1),
        arrival(alloc, 2, second.0, second.1),
    ) else {
        return Err(NoMemory);
    };
    let Ok(of_link) = Vec::from_array(alloc, [one, two]) else {
        return Err(NoMemory);
    };
    let lists = [Vec::new(alloc), of_link, Vec::new(alloc)];
    let Ok(arrivals) = Vec::from_array(alloc, lists) else {
        return Err(NoMemory);
    };
    if link_count(&config) != 3 || link_index(&config, 1) != 1 {
        return Err(NoMemory);
    }
    World::new(alloc, config, arrivals)
}

/// Whether these are the bytes with which the first datagram leaves by link 2, as a model over OpenSSL has
/// them: the cursor at the next hop, the segment identifier chained.
pub fn is_what_leaves(bytes: &[u8]) -> bool {
    let moved = with_bytes(FIRST, PATH_AT, b"\x02");
    bytes == with_bytes(moved, PATH_AT + 6, b"\x1c\x52").as_slice()
}
