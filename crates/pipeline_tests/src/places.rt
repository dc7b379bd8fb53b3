//! Workers and pipes by their places, where the links stand in another order than their interfaces.

use cmac_core::Cmac;
use process_packet::{Bands, Config, Ip, Link, Underlay};
use replay_places::{Queue, QueueIndex, WorkerIndex, link_pipe, seat_count, slow_seat};
use router_rules::Worker;
use sample_packets::KEY;
use segment_switch::LinkKind;
use std::alloc::{AllocError, Global};
use std::test::*;

/// The router of 1-ff00:0:110 with two links, not in the order of their interfaces; the second has two bands.
fn config(alloc: Global) -> Result<Config, AllocError> {
    let links = [
        Link {
            id: 7,
            kind: LinkKind::Parent,
            local: Underlay {
                ip: Ip::V4([10, 1, 0, 1]),
                port: 40000,
            },
            remote: Underlay {
                ip: Ip::V4([10, 1, 0, 2]),
                port: 40000,
            },
            bands: Bands::One,
            neighbor: None,
            bfd: false,
        },
        Link {
            id: 2,
            kind: LinkKind::Child,
            local: Underlay {
                ip: Ip::V4([10, 2, 0, 1]),
                port: 40000,
            },
            remote: Underlay {
                ip: Ip::V4([10, 2, 0, 2]),
                port: 40000,
            },
            bands: Bands::Two,
            neighbor: None,
            bfd: false,
        },
    ];
    Ok(Config {
        isd: 1,
        autonomous_system: 0xff00_0000_0110,
        key: Cmac::new(&KEY),
        internal: Underlay {
            ip: Ip::V4([10, 0, 0, 1]),
            port: 30000,
        },
        internal_bands: Bands::One,
        host_port: 30041,
        dispatched_ports: None,
        processors: 2,
        capacity: 1,
        seed: 0,
        buffers: 64,
        links: Vec::from_array(alloc, links)?,
        siblings: Vec::new(alloc),
        services: Vec::new(alloc),
    })
}

/// Whether a forwarder is where it has to be among the workers.
fn is_found(config: &Config, forwarder: WorkerIndex) -> bool {
    (forwarder, forwarder.seat(config)) == (WorkerIndex::Forwarder(2), 8)
        && forwarder.is_there(config)
        && !forwarder.is(WorkerIndex::Slow)
        && forwarder.producer(config) == None
}

/// Whether a high band's pipe is where it has to be, and is fed by those that have to.
fn is_fed(config: &Config, high: QueueIndex) -> bool {
    high.is_there(config)
        && high.place(config) == 9
        && (high.consumer(), high.is_out()) == (WorkerIndex::Forwarder(1), true)
        && WorkerIndex::Slow.feeds(high)
        && !WorkerIndex::Forwarder(2).feeds(high)
        && high.producers(config) == 4
}

/// Whether the other numbers are right.
fn are_numbered(config: &Config) -> bool {
    (slow_seat(config), seat_count(config)) == (5, 9)
        && link_pipe(config, true, 2) == 11
        && WorkerIndex::Slow.producer(config) == Some(2)
        && WorkerIndex::Controller.producer(config) == Some(3)
}

#[test]
fn finds_workers_and_pipes(rt: HostRuntime) {
    let config = config(rt.alloc()).expect(&rt, "memory");
    assert!(rt; are_numbered(&config));
    assert!(rt; is_found(&config, WorkerIndex::named(&config, Worker::Forwarder(7))));
    assert!(rt; is_fed(&config, QueueIndex::named(&config, Queue::High(2))));
}
