//! Many links, four processors, and pipes of a single entry.

ghost use Rattle.std.specs.Prelude.{◌≡◌, ◌<◌, length};

use crate::cues::Words;
use crate::play::{Played, run};
use crate::reports::{adds_up, sent_by};
use crate::routers::wide_router;
use crate::setup::{Devices, OPEN, Setup, sinks};
use crate::sink::Taking;
use crate::source::{FLOWS, Plan, PlannedSource};
use cmac_core::Cmac;
use hop_check::beacon;
use path_fields::Hop;
use process_packet::{Ip, Underlay};
use sample_packets::{FIRST, KEY, PATH_AT, with_bytes};
use stages_tests::FULL_SLOW_PATH;
use std::alloc::{AllocError, Global};
use std::sync::Arc;
use std::test::*;
use worker_parts::{Sent, both};

/// All links, the internal network's among them.
const LINKS: u16 = 33;

/// How many datagrams come by each.
const DATAGRAMS: u64 = 1000;

/// The first datagram's segment.
const SEGMENT_ID: u16 = 0x1234;

const TIMESTAMP: u32 = 0x6500_0000;

/// Where the first hop field begins, and the second.
const FIRST_HOP: usize = PATH_AT + 12;

const SECOND_HOP: usize = PATH_AT + 24;

/// Where that is in the datagram.
const SEGMENT_AT: usize = PATH_AT + 6;

/// Where the source's AS is.
const SOURCE_AS: usize = 20;

/// The fields of a hop that enters by an interface and leaves by link 1, from its flags on.
fn hop_to_one(ingress: u8) -> [u8; 12] {
    let mut hops = [Hop {
        reserved_flags: 0,
        ingress_alert: false,
        egress_alert: false,
        expiry: 63,
        construction_ingress: u16::from(ingress),
        construction_egress: 1,
        mac: [0; 6],
    }];
    beacon(&[Cmac::new(&KEY)], SEGMENT_ID, TIMESTAMP, &mut hops);
    let mac = hops[0].mac;
    [
        0, 63, 0, ingress, 0, 1, mac[0], mac[1], mac[2], mac[3], mac[4], mac[5],
    ]
}

/// A datagram that comes by a link and leaves by link 1: from within it is at its path's first hop.
fn datagram_by(link: u8) -> [u8; 92] {
    let hop = hop_to_one(link);
    if link > 0 {
        return with_bytes(FIRST, SECOND_HOP, &hop);
    }
    let begins = with_bytes(FIRST, PATH_AT, &[0]);
    let local = with_bytes(begins, SOURCE_AS, &[0, 1, 0xff, 0, 0, 0, 1, 0x10]);
    with_bytes(local, FIRST_HOP, &hop)
}

// A datagram at this hop of its path, with its segment's identifier chained by a MAC that begins with these bytes.
fn moved(came: [u8; 92], hop: u8, one: u8, two: u8) -> [u8; 92] {
    let mut leaves = came;
    leaves[PATH_AT] = hop;
    leaves[SEGMENT_AT] ^= one;
    leaves[SEGMENT_AT + 1] ^= two;
    leaves
}

/// The datagram that comes by a link, as it leaves by link 1.
fn leaving_from(link: u8) -> [u8; 92] {
    let came = datagram_by(link);
    if link > 0 {
        return moved(came, 2, came[SECOND_HOP + 6], came[SECOND_HOP + 7]);
    }
    moved(came, 1, came[FIRST_HOP + 6], came[FIRST_HOP + 7])
}

// What the source of a link gives: its datagrams, at once.
fn plan(link: u8) -> Plan {
    let from = Underlay {
        ip: Ip::V4([10, 2, 0, link]),
        port: 40000,
    };
    Plan::Flows(DATAGRAMS, from, datagram_by(link))
}

fn sources(words: &Arc<Words, Global>) -> Result<Vec<PlannedSource>, AllocError> {
    let mut sources = Vec::new(words.alloc());
    for link in 0..33u8 {
        sources.push(PlannedSource::new(words, plan(link))?)?;
    }
    Ok(sources)
}

fn devices(words: &Arc<Words, Global>) -> Option<Devices> {
    let (sources, sinks) = both(sources(words), sinks(words, 33, Taking::Keeps(0))).ok()?;
    Some(Devices { sources, sinks })
}

fn all_links(rt: HostRuntime) -> Option<Setup> {
    let words = Words::new(rt).ok()?;
    Setup::over(&words, wide_router(rt.alloc()), devices(&words), OPEN)
}

/// Whether the sink took what a router that decides on one datagram after the other sends for this one of a link.
fn is_sent_for(sent: &Sent, link: u8, flow: u8) -> bool {
    let wanted = with_bytes(leaving_from(link), 3, &[flow]);
    sent.took
        && !sent.out.answer
        && sent.out.to.is_none()
        && sent.bytes.as_slice() == wanted.as_slice()
}

/// Whether the sink took a packet as it should leave, and it comes after the last one of its link and flow, whose
/// number it replaces.
fn follows(last: &mut [u64; 1650], sent: &Sent) -> bool {
    let number = sent.out.number;
    let flow = number % FLOWS;
    let link = sent.out.arrived;
    if link >= LINKS || number > DATAGRAMS {
        return false;
    }
    let at = usize::from(link) * 50 + flow as usize;
    if number <= last[at] {
        return false;
    }
    last[at] = number;
    is_sent_for(sent, link as u8, flow as u8)
}

/// Whether the sink took each packet as it should leave, and those of a link and flow have ascending numbers: so a
/// router that decides on one datagram after the other sends them, all but those that were dropped.
fn is_in_order(list: &[Sent]) -> bool {
    let mut last = [0u64; 1650];
    for sent in list {
        if !follows(&mut last, sent) {
            return false;
        }
    }
    true
}

// What link 1's sink was handed: how many packets, where they are in order.
fn in_order(played: &Played) -> Option<u128> {
    let list = played.told(1)?;
    if is_in_order(list) {
        Some(list.len() as u128)
    } else {
        None
    }
}

// Whether all were received, this number of them sent, all by link 1, and all others dropped.
fn went_by_one(played: &Played, sent: u128) -> bool {
    let mut counts = [0; 33];
    counts[1] = sent;
    let totals = &played.report.totals;
    adds_up(totals, 33_000)
        && (totals.sent, totals.answered, totals.dropped[FULL_SLOW_PATH]) == (sent, 0, 0)
        && sent_by(&played.report, &counts)
}

// Whether packets were sent by link 1 alone, in order, and all others were dropped.
fn is_wide(played: Option<Played>) -> bool {
    let Some(played) = played else {
        return false;
    };
    match in_order(&played) {
        Some(sent) => went_by_one(&played, sent),
        None => false,
    }
}

#[test]
fn capacity_one(rt: HostRuntime) {
    assert!(rt; is_wide(run(rt, all_links(rt))));
}
