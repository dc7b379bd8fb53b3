//! Walks over three ASes in a row, 1-ff00:0:111, 1-ff00:0:110 and 1-ff00:0:112, of one router each. The
//! hop fields' MACs are made by `beacon`, and are those that OpenSSL made; the reply is made by `answer`.

ghost use Rattle.std.specs.Prelude.{◌≡◌, ◌<◌, IsTrue, IfOk, length};
ghost use Rattle.net_laws.specs.Net.{Agrees, net_of};

use crate::hops::hop_between;
use crate::made::push_hop;
use crate::sound::is_sound;
use cmac_core::Cmac;
use hop_check::beacon;
use net_laws::{End, Net, Wire, agrees};
use net_walks::{Stop, walk};
use process_packet::{Arrival, Ip, NoMemory, Problem, Routed, Underlay};
use router_config::read_config;
use scmp_answer::{Answered, answer};
use std::alloc::Global;
use std::process::Abort;

const FIRST: &str =
    "version = 1\nisd_as = \"1-ff00:0:111\"\nkey = \"000102030405060708090a0b0c0d0e0f\"\n\
    internal = \"10.1.0.250:30000\"\nhost_port = 30041\nprocessors = 1\ncapacity = 4\nseed = 0\n\
    link = [{id=17, kind=\"child\", local=\"10.1.0.2:40000\", remote=\"10.1.0.1:40000\"}]\n";

const MIDDLE: &str =
    "version = 1\nisd_as = \"1-ff00:0:110\"\nkey = \"2b7e151628aed2a6abf7158809cf4f3c\"\n\
    internal = \"10.0.0.1:30000\"\nhost_port = 30041\nprocessors = 1\ncapacity = 4\nseed = 0\n\
    link = [\n {id=1, kind=\"parent\", local=\"10.1.0.1:40000\", remote=\"10.1.0.2:40000\"},\n \
    {id=2, kind=\"child\", local=\"10.2.0.1:40000\", remote=\"10.2.0.2:40000\"}]\n";

const LAST: &str =
    "version = 1\nisd_as = \"1-ff00:0:112\"\nkey = \"101112131415161718191a1b1c1d1e1f\"\n\
    internal = \"10.2.0.250:30000\"\nhost_port = 30041\nprocessors = 1\ncapacity = 4\nseed = 0\n\
    link = [{id=18, kind=\"parent\", local=\"10.2.0.2:40000\", remote=\"10.2.0.1:40000\"}]\n";

/// The keys of the three ASes, and when their segment was made.
const KEYS: [[u8; 16]; 3] = [
    [0, 1, 2, 3, 4, 5, 6, 7, 8, 9, 10, 11, 12, 13, 14, 15],
    [
        0x2b, 0x7e, 0x15, 0x16, 0x28, 0xae, 0xd2, 0xa6, 0xab, 0xf7, 0x15, 0x88, 0x09, 0xcf, 0x4f,
        0x3c,
    ],
    [
        16, 17, 18, 19, 20, 21, 22, 23, 24, 25, 26, 27, 28, 29, 30, 31,
    ],
];

const MADE_AT: u32 = 0x65000000;

/// The datagram up to its hop fields, and what follows them.
const FRONT: &str = "0000000111150008010000000001ff00000001120001ff00000001110a0200070a010005\
    000030000100123465000000";

const PAYLOAD: &str = "7559755900080000";

/// From 1-ff00:0:111, 10.1.0.5 to 1-ff00:0:112, 10.2.0.7, as the host sends it, with OpenSSL's MACs.
const DATAGRAM: &str = "0000000111150008010000000001ff00000001120001ff00000001110a0200070a010005\
    00003000010012346500000000\
    3f000000116349aa95d77c003f000100026193b6549f1e003f0012000026d850ac58d37559755900080000";

/// As it is delivered.
const DELIVERED: &str = "0000000111150008010000000001ff00000001120001ff00000001110a0200070a010005\
    020030000100\
    10ee65000000003f000000116349aa95d77c003f000100026193b6549f1e003f0012000026d850ac58d37559755900080000";

/// The middle router's answer to it where its payload length is wrong, as it comes to the first router.
const ANSWER: &str = "00000001ca150064010000000001ff00000001110001ff00000001100a0100050a000001\
    020030000000717d65000000003f0012000026d850ac58d3003f000100026193b6549f1e003f000000116349aa95d77c\
    04135f67000000000000000111150009010000000001ff00000001120001ff00000001110a0200070a010005\
    010030000100717d65000000003f000000116349aa95d77c003f000100026193b6549f1e003f0012000026d850ac58d3\
    7559755900080000";

/// A traceroute request on the same path that asks the middle router at its ingress interface.
const REQUEST: &str = "00000001ca150018010000000001ff00000001120001ff00000001110a0200070a010005\
    000030000100123465000000003f000000116349aa95d77c023f000100026193b6549f1e003f0012000026d850ac58d3\
    820000000007000300000000000000000000000000000000";

pub(crate) fn underlay(address: [u8; 4], port: u16) -> Underlay {
    Underlay {
        ip: Ip::V4(address),
        port,
    }
}

pub(crate) fn bytes_of(rt: &(impl AllocGlobal + Abort), digits: &str) -> Vec<u8> {
    let mut bytes = Vec::new(rt.alloc());
    bytes.resize(digits.len() / 2, 0).expect(rt, "room");
    assert!(rt;
        hex::decode_to_slice(digits, bytes.as_mut_slice()).is_ok(),
        "hex"
    );
    bytes
}

fn extend(rt: &(impl AllocGlobal + Abort), bytes: &mut Vec<u8>, digits: &str) {
    bytes
        .extend_from_slice(bytes_of(rt, digits).as_slice())
        .expect(rt, "bytes");
}

/// The datagram with the MACs that `beacon` makes for its hop fields.
fn datagram(rt: &(impl AllocGlobal + Abort)) -> Vec<u8> {
    let keys = [
        Cmac::new(&KEYS[0]),
        Cmac::new(&KEYS[1]),
        Cmac::new(&KEYS[2]),
    ];
    let mut hops = [
        hop_between(0, 17, 63, [0; 6]),
        hop_between(1, 2, 63, [0; 6]),
        hop_between(18, 0, 63, [0; 6]),
    ];
    beacon(&keys, 0x1234, MADE_AT, &mut hops);
    let mut bytes = bytes_of(rt, FRONT);
    for hop in &hops {
        push_hop(rt, &mut bytes, hop);
    }
    extend(rt, &mut bytes, PAYLOAD);
    bytes
}

/// The same bytes, but for one.
fn with_byte(rt: &(impl AllocGlobal + Abort), bytes: &[u8], at: usize, byte: u8) -> Vec<u8> {
    bytes
        .iter()
        .enumerate()
        .map(|(i, old)| if i == at { byte } else { *old })
        .collect(rt.alloc())
        .expect(rt, "bytes")
}

/// The bytes of the answer of a net's router to a datagram without a fault, where it is sent by this
/// link.
fn reply(
    alloc: Global,
    net: &Net,
    router: usize,
    arrival: &Arrival,
    problem: &Problem,
) -> Result<Option<Vec<u8>>, NoMemory> {
    let Some(config) = net.configs.get(router) else {
        return Ok(None);
    };
    if !is_sound(arrival.bytes.as_slice()) {
        return Ok(None);
    }
    match answer(alloc, config, arrival, problem)? {
        Answered::Send {
            link,
            to: None,
            bytes,
        } if link == arrival.link => Ok(Some(bytes)),
        _ => Ok(None),
    }
}

pub(crate) fn arrival(bytes: Vec<u8>, link: u16, source: Underlay) -> Arrival {
    Arrival {
        link,
        number: 1,
        source,
        now: 1694499816,
        bytes,
    }
}

/// The net, with these lines more in each configuration.
fn net_with(rt: &(impl AllocGlobal + Abort), more: &str) -> Net {
    let mut configs = Vec::new(rt.alloc());
    for lines in [FIRST, MIDDLE, LAST] {
        let mut text = String::new(rt.alloc());
        text.push_str(lines).expect(rt, "text");
        text.push_str(more).expect(rt, "text");
        let config = read_config(rt.alloc(), text.as_str()).expect(rt, "config");
        configs.push(config).expect(rt, "configs");
    }
    let wires = [
        Wire {
            one: End {
                router: 0,
                link: 17,
            },
            other: End { router: 1, link: 1 },
        },
        Wire {
            one: End { router: 1, link: 2 },
            other: End {
                router: 2,
                link: 18,
            },
        },
    ];
    let wires = Vec::from_slice(rt.alloc(), &wires).expect(rt, "wires");
    Net { configs, wires }
}

fn net(rt: &(impl AllocGlobal + Abort)) -> Net {
    net_with(rt, "")
}

/// The datagram from UDP port 31,251 to 31,250.
fn between_applications(rt: &(impl AllocGlobal + Abort)) -> Vec<u8> {
    let mut bytes = datagram(rt);
    for (at, byte) in [(84, 0x7a), (85, 0x13), (86, 0x7a), (87, 0x12)] {
        bytes = with_byte(rt, bytes.as_slice(), at, byte);
    }
    bytes
}

/// The walk, where the net agrees and has the router.
pub(crate) fn walked(
    alloc: Global,
    net: &Net,
    router: usize,
    arrival: &Arrival,
) -> Result<Vec<Stop>, NoMemory> {
    if router < net.configs.len() && agrees(net) {
        walk(alloc, net, router, arrival)
    } else {
        Ok(Vec::new(alloc))
    }
}

/// Whether the stop is at the router, and sends the packet so.
pub(crate) fn sends(stop: &Stop, router: usize, out: u16, address: Option<Underlay>) -> bool {
    match &stop.routed {
        Routed::Send { link, to, .. } => { stop.router == router && *link == out && *to == address }
        _ => false,
    }
}

pub(crate) fn sends_bytes(stop: &Stop, wanted: &[u8]) -> bool {
    match &stop.routed {
        Routed::Send { bytes, .. } => bytes.as_slice() == wanted,
        _ => false,
    }
}

pub(crate) fn answers(stop: &Stop, wanted: Problem) -> bool {
    match &stop.routed {
        Routed::Answer(problem) => *problem == wanted,
        _ => false,
    }
}

#[test]
fn walks_to_the_host(rt: HostRuntime) {
    let net = net(&rt);
    let bytes = datagram(&rt);
    assert!(rt; bytes.as_slice() == bytes_of(&rt, DATAGRAM).as_slice());
    let start = arrival(bytes, 0, underlay([10, 1, 0, 5], 30041));
    let stops = walked(rt.alloc(), &net, 0, &start).expect(&rt, "memory");
    let [one, two, three] = stops.as_slice() else {
        return assert!(rt; false, "three stops");
    };
    assert!(rt; sends(one, 0, 17, None));
    assert!(rt; sends(two, 1, 2, None));
    assert!(rt; sends(three, 2, 0, Some(underlay([10, 2, 0, 7], 30041))));
    assert!(rt; sends_bytes(three, bytes_of(&rt, DELIVERED).as_slice()));
}

#[test]
fn an_answer_walks_back(rt: HostRuntime) {
    let net = net(&rt);
    let start = arrival(datagram(&rt), 0, underlay([10, 1, 0, 5], 30041));
    let stops = walked(rt.alloc(), &net, 0, &start).expect(&rt, "memory");
    let [_, two, _] = stops.as_slice() else {
        return assert!(rt; false, "three stops");
    };
    // as it came to the middle router, with another payload length
    let longer = with_byte(&rt, two.arrival.bytes.as_slice(), 7, 9);
    let there = arrival(longer, two.arrival.link, two.arrival.source);
    let problem = Problem {
        kind: 4,
        code: 19,
        pointer: 0,
    };
    let sent = reply(rt.alloc(), &net, two.router, &there, &problem).expect(&rt, "memory");
    let Some(bytes) = sent else {
        return assert!(rt; false, "an answer");
    };
    assert!(rt; bytes.as_slice() == bytes_of(&rt, ANSWER).as_slice());
    let back = arrival(bytes, 17, underlay([10, 1, 0, 1], 40000));
    let stops = walked(rt.alloc(), &net, 0, &back).expect(&rt, "memory");
    let [one] = stops.as_slice() else {
        return assert!(rt; false, "one stop");
    };
    assert!(rt; sends(one, 0, 0, Some(underlay([10, 1, 0, 5], 30041))));
}

#[test]
fn ends_at_the_router_that_is_asked(rt: HostRuntime) {
    let net = net(&rt);
    let start = arrival(bytes_of(&rt, REQUEST), 0, underlay([10, 1, 0, 5], 30041));
    let stops = walked(rt.alloc(), &net, 0, &start).expect(&rt, "memory");
    let [one, two] = stops.as_slice() else {
        return assert!(rt; false, "two stops");
    };
    assert!(rt; sends(one, 0, 17, None));
    let reply = Problem {
        kind: 131,
        code: 0,
        pointer: 1,
    };
    assert!(rt; answers(two, reply));
}

#[test]
fn walks_to_applications_and_back(rt: HostRuntime) {
    let net = net_with(&rt, "dispatched_ports = [31000, 31251]\n");
    let start = arrival(between_applications(&rt), 0, underlay([10, 1, 0, 5], 31251));
    let stops = walked(rt.alloc(), &net, 0, &start).expect(&rt, "memory");
    let [_, two, three] = stops.as_slice() else {
        return assert!(rt; false, "three stops");
    };
    assert!(rt; sends(three, 2, 0, Some(underlay([10, 2, 0, 7], 31250))));
    // the middle router's answer quotes the port from which it was sent
    let longer = with_byte(&rt, two.arrival.bytes.as_slice(), 7, 9);
    let there = arrival(longer, two.arrival.link, two.arrival.source);
    let problem = Problem {
        kind: 4,
        code: 19,
        pointer: 0,
    };
    let sent = reply(rt.alloc(), &net, two.router, &there, &problem).expect(&rt, "memory");
    let Some(bytes) = sent else {
        return assert!(rt; false, "an answer");
    };
    let back = arrival(bytes, 17, underlay([10, 1, 0, 1], 40000));
    let stops = walked(rt.alloc(), &net, 0, &back).expect(&rt, "memory");
    let [one] = stops.as_slice() else {
        return assert!(rt; false, "one stop");
    };
    assert!(rt; sends(one, 0, 0, Some(underlay([10, 1, 0, 5], 31251))));
}
