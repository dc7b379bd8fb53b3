//! The decision on whole datagrams.

use process_packet::{
    Arrival, CAUSES, Cause, Ip, NoMemory, Problem, Routed, Totals, Underlay, route, trace_request,
};
use router_config::read_config;
use sample_packets::{CONFIGURATION, FIRST, IN_TIME, LATE, PATH_AT, with_bytes};
use std::test::*;

const ALL: [Cause; CAUSES] = [
    Cause::Short,
    Cause::Version,
    Cause::PathType,
    Cause::Header,
    Cause::Path,
    Cause::Peering,
    Cause::UnderlaySource,
    Cause::PathEnd,
    Cause::NoAnswer,
    Cause::NoWayBack,
    Cause::TooLong,
    Cause::ProcessorFull,
    Cause::LinkFull,
    Cause::AnswerFull,
    Cause::NoMemory,
    Cause::Closed,
    Cause::SendFailed,
    Cause::NoBuffer,
    Cause::OneHopEnds,
    Cause::OneHopField,
    Cause::OneHopHost,
];

/// How many causes, from the first one on, have their places for numbers, and whose drops these
/// totals count.
fn causes_in_order(totals: &Totals) -> u8 {
    let mut place = 0u8;
    for cause in ALL {
        if cause.number() == place.wrapping_add(1)
            && totals.dropped_for(cause) == u128::from(cause.number()).wrapping_add(100)
        {
            place = place.wrapping_add(1);
        }
    }
    place
}

#[test]
fn numbers_each_cause_and_tells_its_drops(rt: HostRuntime) {
    let totals = Totals {
        received: 7,
        sent: 8,
        answered: 9,
        dropped: [
            101, 102, 103, 104, 105, 106, 107, 108, 109, 110, 111, 112, 113, 114, 115, 116, 117,
            118, 119, 120, 121,
        ],
    };
    assert!(rt; usize::from(causes_in_order(&totals)) == CAUSES);
}

/// The request that is in the bytes after the header of an SCMP message.
fn request_in(message: &[u8]) -> Option<(u16, u16)> {
    match scion_header::read_header(&with_bytes(FIRST, 4, &[202])) {
        Ok(header) => trace_request(&header, message),
        Err(_) => None,
    }
}

#[test]
fn finds_traceroute_requests(rt: HostRuntime) {
    let mut message = [0; 24];
    message[0] = 130;
    message[5] = 7;
    message[7] = 3;
    assert!(rt; request_in(&message) == Some((7, 3)));
    assert!(rt; request_in(&message[..23]) == None);
    message[1] = 1;
    assert!(rt; request_in(&message) == None);
}

/// Whether the first datagram is sent as it leaves by link 2: with its cursor at the third hop, and the
/// MAC's first two bytes xored into its segment identifier.
fn is_sent_on(routed: &Result<Routed, NoMemory>) -> bool {
    let wanted = with_bytes(with_bytes(FIRST, PATH_AT, &[0x02]), 42, &[0x1c, 0x52]);
    match routed {
        Ok(Routed::Send { link, to, bytes }) => {
            *link == 2 && to.is_none() && bytes.as_slice() == wanted.as_slice()
        }
        _ => false,
    }
}

/// Whether its sender is told that the hop field at the cursor has expired.
fn is_told_late(routed: &Result<Routed, NoMemory>) -> bool {
    match routed {
        Ok(Routed::Answer(problem)) => {
            *problem
                == Problem {
                    kind: 4,
                    code: 52,
                    pointer: 60,
                }
        }
        _ => false,
    }
}

#[test]
fn routes_with_bytes_of_their_own(rt: HostRuntime) {
    let config = read_config(rt.alloc(), CONFIGURATION).expect(&rt, "configuration");
    let arrival = Arrival {
        link: 1,
        number: 1,
        source: Underlay {
            ip: Ip::V4([10, 1, 0, 2]),
            port: 40000,
        },
        now: IN_TIME,
        bytes: Vec::from_slice(rt.alloc(), &FIRST).expect(&rt, "memory"),
    };
    assert!(rt;
        is_sent_on(&route(rt.alloc(), &config, &arrival)),
        "it is sent on"
    );
    let late = Arrival {
        now: LATE,
        ..arrival
    };
    assert!(rt;
        is_told_late(&route(rt.alloc(), &config, &late)),
        "it is answered"
    );
    drop(config);
}
