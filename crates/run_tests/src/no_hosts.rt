//! Addresses that no host can have, on sockets of this machine: nothing is sent to them.

use process_packet::{Ip, Underlay};
use router_rules::Outgoing;
use std::net::Net;
use std::process::Abort;
use std::test::*;
use std::time::Clock;
use udp_devices::{Ends, UdpSink, open_link};
use worker_parts::Sink;

/// This machine's loopback addresses, and an address that isn't one, of both versions.
const LOOPBACK: Ip = Ip::V4([127, 0, 0, 1]);

const ANY: Ip = Ip::V4([0, 0, 0, 0]);

const LOOPBACK_6: Ip = Ip::V6([0, 0, 0, 0, 0, 0, 0, 0, 0, 0, 0, 0, 0, 0, 0, 1]);

const ANY_6: Ip = Ip::V6([0, 0, 0, 0, 0, 0, 0, 0, 0, 0, 0, 0, 0, 0, 0, 0]);

/// What no host has, for an own address of either kind: groups, all of this network, and, in version 6, the
/// machine's own loopback address as one of version 4.
const GROUP: Ip = Ip::V4([224, 0, 0, 1]);

const LAST_GROUP: Ip = Ip::V4([239, 255, 255, 255]);

const ALL: Ip = Ip::V4([255, 255, 255, 255]);

const GROUP_6: Ip = Ip::V6([255, 2, 0, 0, 0, 0, 0, 0, 0, 0, 0, 0, 0, 0, 0, 1]);

const MAPPED: Ip = Ip::V6([0, 0, 0, 0, 0, 0, 0, 0, 0, 0, 255, 255, 127, 0, 0, 1]);

/// The sink of a socket at an address, at a port that the system picks.
fn sink_at<R: Abort + Net + Clock + Copy + Drop>(rt: &R, ip: Ip) -> UdpSink {
    let ends = Ends {
        local: Underlay { ip, port: 0 },
        remote: None,
    };
    let (_, sink) = open_link(rt, ends).expect(rt, "socket");
    sink
}

/// Whether nothing is sent to an address, and that is one failure more.
fn refuses(sink: &mut UdpSink, ip: Ip) -> bool {
    let out = Outgoing {
        arrived: 1,
        number: 1,
        answer: false,
        to: Some(Underlay { ip, port: 9 }),
    };
    let before = sink.failures();
    before < 9 && sink.send(&out, b"abc").is_err() && sink.failures() == before + 1
}

#[test]
fn what_no_host_has_is_refused(rt: HostRuntime) {
    let mut sink = sink_at(&rt, LOOPBACK);
    let groups = refuses(&mut sink, GROUP) && refuses(&mut sink, LAST_GROUP);
    assert!(rt; groups && refuses(&mut sink, ANY) && refuses(&mut sink, ALL));
    let mut sink_6 = sink_at(&rt, LOOPBACK_6);
    let groups = refuses(&mut sink_6, GROUP_6) && refuses(&mut sink_6, ANY_6);
    assert!(rt; groups && refuses(&mut sink_6, MAPPED));
}

#[test]
fn loopback_is_for_loopback_alone(rt: HostRuntime) {
    assert!(rt; refuses(&mut sink_at(&rt, ANY), LOOPBACK));
    assert!(rt; refuses(&mut sink_at(&rt, ANY_6), LOOPBACK_6));
}
