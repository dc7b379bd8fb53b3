//! Beacons on paths of one hop between 1-ff00:0:111 and 1-ff00:0:110, of one router each, whose links name each
//! other's AS: one each way, and a reply over the path that the first one leaves behind. And BFD that is forged in the
//! one AS, which ends at the router of the other. OpenSSL made the MACs.

use crate::walks::{answers, arrival, bytes_of, sends, sends_bytes, underlay, walked};
use crate::wires::{end, wire};
use net_laws::Net;
use process_packet::Problem;
use router_config::read_config;
use std::process::Abort;

const PARENT: &str =
    "version = 1\nisd_as = \"1-ff00:0:111\"\nkey = \"000102030405060708090a0b0c0d0e0f\"\n\
    internal = \"10.1.0.250:30000\"\nhost_port = 30041\nprocessors = 1\ncapacity = 4\nseed = 0\n\
    link = [{id=17, kind=\"child\", local=\"10.1.0.2:40000\", remote=\"10.1.0.1:40000\", neighbor=\"1-ff00:0:110\"}]\n";

const CHILD: &str =
    "version = 1\nisd_as = \"1-ff00:0:110\"\nkey = \"2b7e151628aed2a6abf7158809cf4f3c\"\n\
    internal = \"10.0.0.1:30000\"\nhost_port = 30041\nprocessors = 1\ncapacity = 4\nseed = 0\n\
    link = [{id=1, kind=\"parent\", local=\"10.1.0.1:40000\", remote=\"10.1.0.2:40000\", neighbor=\"1-ff00:0:111\", bfd=true}]\n\
    service = [{number=2, at=\"10.0.0.9:30252\"}]\n";

/// An address and a port.
type Place = ([u8; 4], u16);

/// A walk of two stops: out by a link of a router, and to an address in the AS of the other one.
struct Crossing {
    router: usize,
    from: Place,
    sent: &'static str,
    out: u16,
    left: &'static str,
    there: usize,
    to: Place,
    delivered: &'static str,
}

const CROSSINGS: [Crossing; 3] = [
    // a beacon from 1-ff00:0:111, 10.1.0.5 to the control service of 1-ff00:0:110
    Crossing {
        router: 0,
        from: ([10, 1, 0, 5], 30041),
        sent: "0000000111110008024000000001ff00000001100001ff0000000111000200000a010005\
            0100123465000000003f000000116349aa95d77c0000000000000000000000007559755900080000",
        out: 17,
        left: "0000000111110008024000000001ff00000001100001ff0000000111000200000a010005\
            0100717d65000000003f000000116349aa95d77c0000000000000000000000007559755900080000",
        there: 1,
        to: ([10, 0, 0, 9], 30252),
        delivered: "0000000111110008024000000001ff00000001100001ff0000000111000200000a010005\
            0100717d65000000003f000000116349aa95d77c003f00010000f0821ddd927c7559755900080000",
    },
    // its answer, over the path of its two hop fields
    Crossing {
        router: 1,
        from: ([10, 0, 0, 9], 30252),
        sent: "0000000111120008010000000001ff00000001110001ff00000001100a0100050a000009\
            000020000000717d65000000003f00010000f0821ddd927c003f000000116349aa95d77c7559755900080000",
        out: 1,
        left: "0000000111120008010000000001ff00000001110001ff00000001100a0100050a000009\
            010020000000717d65000000003f00010000f0821ddd927c003f000000116349aa95d77c7559755900080000",
        there: 0,
        to: ([10, 1, 0, 5], 30041),
        delivered: "0000000111120008010000000001ff00000001110001ff00000001100a0100050a000009\
            010020000000123465000000003f00010000f0821ddd927c003f000000116349aa95d77c7559755900080000",
    },
    // a beacon from 1-ff00:0:110, 10.0.0.9 to 1-ff00:0:111, 10.1.0.5
    Crossing {
        router: 1,
        from: ([10, 0, 0, 9], 30252),
        sent: "0000000111110008020000000001ff00000001110001ff00000001100a0100050a000009\
            0100432165000000003f00000001c3ef3dd0ff1b0000000000000000000000007559755900080000",
        out: 1,
        left: "0000000111110008020000000001ff00000001110001ff00000001100a0100050a000009\
            010080ce65000000003f00000001c3ef3dd0ff1b0000000000000000000000007559755900080000",
        there: 0,
        to: ([10, 1, 0, 5], 30041),
        delivered: "0000000111110008020000000001ff00000001110001ff00000001100a0100050a000009\
            010080ce65000000003f00000001c3ef3dd0ff1b003f00110000e15c0e9f2bb27559755900080000",
    },
];

fn net(rt: &(impl AllocGlobal + Abort)) -> Net {
    let mut configs = Vec::new(rt.alloc());
    for text in [PARENT, CHILD] {
        let config = read_config(rt.alloc(), text).expect(rt, "config");
        configs.push(config).expect(rt, "configs");
    }
    let wires = Vec::from_slice(rt.alloc(), &[wire(end(0, 17), end(1, 1))]).expect(rt, "wires");
    Net { configs, wires }
}

/// Whether the walk is just these two stops, with these bytes.
fn walks_so(rt: &(impl AllocGlobal + Abort), net: &Net, crossing: &Crossing) -> bool {
    let (address, port) = crossing.from;
    let start = arrival(bytes_of(rt, crossing.sent), 0, underlay(address, port));
    let stops = walked(rt.alloc(), net, crossing.router, &start).expect(rt, "memory");
    let [one, two] = stops.as_slice() else {
        return false;
    };
    let (address, port) = crossing.to;
    sends(one, crossing.router, crossing.out, None)
        && sends_bytes(one, bytes_of(rt, crossing.left).as_slice())
        && sends(two, crossing.there, 0, Some(underlay(address, port)))
        && sends_bytes(two, bytes_of(rt, crossing.delivered).as_slice())
}

#[test]
fn beacons_cross_and_are_answered(rt: HostRuntime) {
    let net = net(&rt);
    for crossing in &CROSSINGS {
        assert!(rt; walks_so(&rt, &net, crossing), "{}", crossing.sent);
    }
}

/// BFD as if the router of 1-ff00:0:111 had sent it by its link, Up, from 10.1.0.5 within that AS.
const FORGED: &str = "0b800007cb110018020000000001ff00000001100001ff00000001110a0000090a010005\
    0100222265000000003f00000011e6b29e625bd4000000000000000000000000\
    20c003180000001100000001000f424000030d4000000000";

#[test]
fn forged_bfd_ends_in_an_answer(rt: HostRuntime) {
    let net = net(&rt);
    let start = arrival(bytes_of(&rt, FORGED), 0, underlay([10, 1, 0, 5], 30041));
    let stops = walked(rt.alloc(), &net, 0, &start).expect(&rt, "memory");
    let [one, two] = stops.as_slice() else {
        return assert!(rt; false, "two stops");
    };
    assert!(rt; sends(one, 0, 17, None));
    let bfd = Problem {
        kind: 203,
        code: 0,
        pointer: 1,
    };
    assert!(rt; answers(two, bfd));
}
