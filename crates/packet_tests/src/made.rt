//! Nets that a seeded maker builds: a row of two to five ASes, each with one router or two, over core links
//! or from parent to child, and a packet that travels along the row or against.

ghost use Rattle.std.specs.Prelude.{◌≡◌, length};

use crate::walks::{sends, underlay, walked};
use cmac_core::Cmac;
use hop_check::{beacon, chain};
use net_laws::{End, Net, Wire, agrees};
use path_fields::Hop;
use process_packet::{Arrival, Config};
use router_config::read_config;
use std::process::Abort;

/// When the segments are made.
const MADE_AT: u32 = 1694498816;

/// A quarter of an hour later.
const NOW: u64 = 1694499716;

/// What is built for a seed.
#[derive(Clone, Copy)]
struct Plan {
    /// How many ASes are in the row, 2 to 5.
    ases: u8,
    /// The number of the last one; the first is number 0.
    last: u8,
    core: bool,
    along: bool,
    /// Bit k: AS k has one router for each of its links.
    split: u8,
    beta: u16,
    expiry: u8,
}

fn plan_of(seed: u8) -> Plan {
    let beta = u16::from(seed).wrapping_mul(40503);
    Plan {
        ases: 2 + seed % 4,
        last: 1 + seed % 4,
        core: seed / 4 % 2 == 1,
        along: seed / 8 % 2 == 1,
        split: seed / 16,
        beta,
        expiry: 4 + seed % 32,
    }
}

/// Whether an AS has two routers: it is within the row, and its bit is set.
fn is_split(plan: Plan, number: u8) -> bool {
    let bit = match number {
        1 => plan.split % 2,
        2 => plan.split / 2 % 2,
        _ => plan.split / 4 % 2,
    };
    number != 0 && number != plan.last && bit == 1
}

/// The interface by which a segment enters an AS, or 0.
fn ingress(number: u8) -> u16 {
    if number == 0 {
        0
    } else {
        40 + u16::from(number)
    }
}

/// The interface by which it leaves it, or 0.
fn egress(plan: Plan, number: u8) -> u16 {
    if number == plan.last {
        0
    } else {
        20 + u16::from(number)
    }
}

/// The place of an AS's router among the configurations: of the one that the segment enters by, or of the
/// one that it leaves by.
fn place(plan: Plan, number: u8, leaves: bool) -> usize {
    let mut place = 0usize;
    for earlier in 0..number {
        place = place.wrapping_add(if is_split(plan, earlier) { 2 } else { 1 });
    }
    if leaves && is_split(plan, number) {
        place.wrapping_add(1)
    } else {
        place
    }
}

fn kind(plan: Plan, leaves: bool) -> &'static str {
    if plan.core {
        "core"
    } else if leaves {
        "child"
    } else {
        "parent"
    }
}

fn push(rt: &(impl AllocGlobal + Abort), text: &mut String, more: &str) {
    text.push_str(more).expect(rt, "text");
}

/// The interface by which a segment enters an AS, or leaves it.
fn interface(plan: Plan, number: u8, leaves: bool) -> u16 {
    if leaves {
        egress(plan, number)
    } else {
        ingress(number)
    }
}

/// The link by which the segment enters an AS, or leaves it. The wire after AS k is number k.
fn push_link(
    rt: &(impl AllocGlobal + Abort),
    text: &mut String,
    plan: Plan,
    number: u8,
    leaves: bool,
) {
    let id = interface(plan, number, leaves);
    let wire = if leaves {
        number
    } else {
        number.wrapping_sub(1)
    };
    let (here, there) = if leaves { (1, 2) } else { (2, 1) };
    let kind = kind(plan, leaves);
    let line = format!(in rt.alloc();
        "{{id={id}, kind=\"{kind}\", local=\"10.9.{wire}.{here}:40000\", remote=\"10.9.{wire}.{there}:40000\"}},"
    ).expect(rt, "link");
    push(rt, text, line.as_str());
}

/// The same of the AS's other router.
fn push_sibling(
    rt: &(impl AllocGlobal + Abort),
    text: &mut String,
    plan: Plan,
    number: u8,
    leaves: bool,
) {
    let id = interface(plan, number, leaves);
    let router = if leaves { 2 } else { 1 };
    let kind = kind(plan, leaves);
    let line = format!(in rt.alloc();
        "{{id={id}, kind=\"{kind}\", at=\"10.8.{number}.{router}:30000\"}},"
    ).expect(rt, "sibling");
    push(rt, text, line.as_str());
}

/// A router with the link by which the segment enters its AS, with the one by which it leaves it, or with both.
fn config(
    rt: &(impl AllocGlobal + Abort),
    plan: Plan,
    number: u8,
    enters: bool,
    leaves: bool,
) -> Config {
    let router = if enters { 1 } else { 2 };
    let mut text = format!(in rt.alloc();
        "version = 1\nisd_as = \"1-ff00:0:11{number}\"\nkey = \"0000000000000000000000000000000{number}\"\n\
        internal = \"10.8.{number}.{router}:30000\"\nhost_port = 30041\nprocessors = 1\ncapacity = 4\nseed = 0\n\
        link = ["
    )
    .expect(rt, "text");
    if enters && number != 0 {
        push_link(rt, &mut text, plan, number, false);
    }
    if leaves && number != plan.last {
        push_link(rt, &mut text, plan, number, true);
    }
    push(rt, &mut text, "]\nsibling = [");
    if !leaves {
        push_sibling(rt, &mut text, plan, number, true);
    }
    if !enters {
        push_sibling(rt, &mut text, plan, number, false);
    }
    push(rt, &mut text, "]\n");
    read_config(rt.alloc(), text.as_str()).expect(rt, "config")
}

fn net(rt: &(impl AllocGlobal + Abort), plan: Plan) -> Net {
    let mut configs = Vec::new(rt.alloc());
    let mut wires = Vec::new(rt.alloc());
    for number in 0..plan.ases {
        if is_split(plan, number) {
            configs
                .push(config(rt, plan, number, true, false))
                .expect(rt, "config");
            configs
                .push(config(rt, plan, number, false, true))
                .expect(rt, "config");
        } else {
            configs
                .push(config(rt, plan, number, true, true))
                .expect(rt, "config");
        }
        if number != plan.last {
            let next = number.wrapping_add(1);
            let one = End {
                router: place(plan, number, true),
                link: egress(plan, number),
            };
            let other = End {
                router: place(plan, next, false),
                link: ingress(next),
            };
            wires.push(Wire { one, other }).expect(rt, "wire");
        }
    }
    Net { configs, wires }
}

/// The hop fields in the direction of construction, as a beacon leaves them.
fn beaconed(rt: &(impl AllocGlobal + Abort), plan: Plan) -> Vec<Hop> {
    let mut keys = Vec::new(rt.alloc());
    let mut hops = Vec::new(rt.alloc());
    for number in 0..plan.ases {
        let mut key = [0; 16];
        key[15] = number;
        keys.push(Cmac::new(&key)).expect(rt, "key");
        let mut hop = Hop::default();
        hop.expiry = plan.expiry;
        hop.construction_ingress = ingress(number);
        hop.construction_egress = egress(plan, number);
        hops.push(hop).expect(rt, "hop");
    }
    if keys.len() == hops.len() {
        beacon(keys.as_slice(), plan.beta, MADE_AT, hops.as_mut_slice());
    }
    hops
}

/// The identifier with which the packet sets out: that of the hop that is travelled first.
fn first_id(plan: Plan, hops: &[Hop]) -> u16 {
    let mut id = plan.beta;
    if !plan.along {
        for hop in hops.iter().take(usize::from(plan.last)) {
            id = chain(id, &hop.mac);
        }
    }
    id
}

fn extend(rt: &(impl AllocGlobal + Abort), bytes: &mut Vec<u8>, more: &[u8]) {
    bytes.extend_from_slice(more).expect(rt, "bytes");
}

pub(crate) fn push_hop(rt: &(impl AllocGlobal + Abort), bytes: &mut Vec<u8>, hop: &Hop) {
    extend(rt, bytes, &[0, hop.expiry]);
    extend(rt, bytes, &hop.construction_ingress.to_be_bytes());
    extend(rt, bytes, &hop.construction_egress.to_be_bytes());
    extend(rt, bytes, &hop.mac);
}

/// A datagram without a payload, from a host of the AS where the travel begins to one of that where it ends.
fn datagram(rt: &(impl AllocGlobal + Abort), plan: Plan) -> Vec<u8> {
    let hops = beaconed(rt, plan);
    let (from, to) = if plan.along {
        (0, plan.last)
    } else {
        (plan.last, 0)
    };
    let mut bytes = Vec::new(rt.alloc());
    let words = plan.ases.wrapping_mul(3).wrapping_add(12);
    extend(rt, &mut bytes, &[0, 0, 0, 1, 17, words, 0, 0, 1, 0, 0, 0]);
    extend(
        rt,
        &mut bytes,
        &[0, 1, 0xff, 0, 0, 0, 1, to.wrapping_add(16)],
    );
    extend(
        rt,
        &mut bytes,
        &[0, 1, 0xff, 0, 0, 0, 1, from.wrapping_add(16)],
    );
    extend(rt, &mut bytes, &[10, 8, to, 77, 10, 8, from, 55]);
    extend(rt, &mut bytes, &[0, 0, plan.ases.wrapping_mul(16), 0]);
    extend(rt, &mut bytes, &[u8::from(plan.along), 0]);
    extend(
        rt,
        &mut bytes,
        &first_id(plan, hops.as_slice()).to_be_bytes(),
    );
    extend(rt, &mut bytes, &MADE_AT.to_be_bytes());
    if plan.along {
        for hop in hops.iter() {
            push_hop(rt, &mut bytes, hop);
        }
    } else {
        for hop in hops.iter().rev() {
            push_hop(rt, &mut bytes, hop);
        }
    }
    bytes
}

/// Whether the net that is built for the seed agrees, and its packet meets each router once and is
/// delivered.
fn is_delivered(rt: &(impl AllocGlobal + Abort), seed: u8) -> bool {
    let plan = plan_of(seed);
    let net = net(rt, plan);
    let (from, to) = if plan.along {
        (0, plan.last)
    } else {
        (plan.last, 0)
    };
    let start = Arrival {
        link: 0,
        number: 1,
        source: underlay([10, 8, from, 55], 30041),
        now: NOW,
        bytes: datagram(rt, plan),
    };
    let stops = walked(rt.alloc(), &net, place(plan, from, plan.along), &start).expect(
        rt, "memory",
    );
    let host = underlay([10, 8, to, 77], 30041);
    match stops.as_slice() {
        [.., end] => {
            agrees(&net)
                && stops.len() == net.configs.len()
                && sends(end, place(plan, to, !plan.along), 0, Some(host))
        }
        [] => false,
    }
}

#[test]
fn made_nets_agree_and_their_packets_are_delivered(rt: HostRuntime) {
    for seed in 0..200 {
        assert!(rt; is_delivered(&rt, seed), "{seed}");
    }
}
