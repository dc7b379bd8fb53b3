//! Sources and sinks on sockets of this machine.

use process_packet::{Ip, Underlay};
use router_rules::Outgoing;
use std::net::Net;
use std::process::Abort;
use std::test::*;
use std::time::{Clock, Duration, Instant};
use udp_devices::{Ends, UdpSink, UdpSource, open_link};
use worker_parts::{BUFFER_LEN, NextLen, Sink, Source};

/// An end at an address of this machine alone, at a port that the system picks.
const HERE: Ends = Ends {
    local: Underlay {
        ip: Ip::V4([127, 0, 0, 1]),
        port: 0,
    },
    remote: None,
};

/// The same in the other version.
const HERE_BY_6: Ends = Ends {
    local: Underlay {
        ip: Ip::V6([0, 0, 0, 0, 0, 0, 0, 0, 0, 0, 0, 0, 0, 0, 0, 1]),
        port: 0,
    },
    remote: None,
};

/// What leaves for an address.
fn leaving(to: Option<Underlay>) -> Outgoing {
    Outgoing {
        arrived: 1,
        number: 1,
        answer: false,
        to,
    }
}

/// Whether the sink takes this number of bytes for an address.
fn takes(sink: &mut UdpSink, to: Option<Underlay>, bytes: &[u8]) -> bool {
    sink.failures() < 5 && sink.send(&leaving(to), bytes).is_ok()
}

/// Whether the buffer begins with this number of bytes of 7.
fn begins_with_sevens(buffer: &[u8], len: usize) -> bool {
    buffer.len() >= len && buffer.iter().take(len).all(|byte| *byte == 7)
}

/// Whether it is a datagram of this length from there.
fn is_datagram(next: &NextLen, from: &Underlay, wanted: usize) -> bool {
    match next {
        NextLen::Datagram {
            len,
            from: sender,
            now,
        } => *len == wanted && sender == from && *now > 1_600_000_000,
        _ => false,
    }
}

/// Whether the source gives this number of bytes of 7 from there, now or after a wait; the buffer has room for one
/// byte more than the longest datagram.
fn gives<R: Clock + Drop>(source: &mut UdpSource<R>, from: &Underlay, len: usize) -> bool {
    let mut buffer = [0u8; BUFFER_LEN];
    if !source.wait() || source.failures() > 5 {
        return false;
    }
    let next = source.next_into(&mut buffer);
    is_datagram(&next, from, len) && begins_with_sevens(&buffer, len)
}

/// Whether nothing is there.
fn is_quiet<R: Clock + Drop>(source: &mut UdpSource<R>) -> bool {
    let mut buffer = [0u8; BUFFER_LEN];
    source.failures() < 5 && source.next_into(&mut buffer) == NextLen::Quiet
}

fn open<R: Abort + Net + Clock + Copy + Drop>(rt: &R, ends: Ends) -> (UdpSource<R>, UdpSink) {
    open_link(rt, ends).expect(rt, "socket")
}

fn address_of<R: Abort + Clock + Drop>(rt: &R, source: &UdpSource<R>) -> Underlay {
    source.address().expect(rt, "address")
}

/// A way from one socket to another, with the addresses of both.
#[derive(Drop)]
struct Way<R: Clock + Drop> {
    sink: UdpSink,
    from: Underlay,
    source: UdpSource<R>,
    at: Underlay,
}

impl<R: Clock + Drop> Way<R> {
    /// Whether a datagram of a length crosses, and this number of its bytes is read.
    fn carries(&mut self, sent: usize, read: usize) -> bool {
        let bytes = [7u8; 9300];
        let Some(front) = bytes.get(..sent) else {
            return false;
        };
        takes(&mut self.sink, Some(self.at), front) && gives(&mut self.source, &self.from, read)
    }
}

/// The way between two new sockets with these ends.
fn way_between<R: Abort + Net + Clock + Copy + Drop>(rt: &R, ends: Ends) -> Way<R> {
    let (reader, sink) = open(rt, ends);
    let from = address_of(rt, &reader);
    let (source, _) = open(rt, ends);
    let at = address_of(rt, &source);
    Way {
        sink,
        from,
        source,
        at,
    }
}

/// Whether datagrams of all lengths cross.
fn crosses<R: Clock + Drop>(way: &mut Way<R>) -> bool {
    let mut good = is_quiet(&mut way.source);
    for (sent, read) in [(0, 0), (1, 1), (9216, 9216), (9217, 9217), (9300, 9217)] {
        good = good && way.carries(sent, read);
    }
    good && is_quiet(&mut way.source) && way.sink.failures() == 0 && way.source.failures() == 0
}

#[test]
fn datagrams_cross(rt: HostRuntime) {
    assert!(rt; crosses(&mut way_between(&rt, HERE)));
    assert!(rt; crosses(&mut way_between(&rt, HERE_BY_6)));
}

/// An address of documentation, which no machine has.
const ELSEWHERE: Underlay = Underlay {
    ip: Ip::V4([192, 0, 2, 1]),
    port: 40000,
};

/// Whether what leaves goes nowhere: the sink fails, and its count is one more.
fn goes_nowhere(sink: &mut UdpSink, to: Option<Underlay>) -> bool {
    let before = sink.failures();
    !takes(sink, to, b"abc") && sink.failures() == before.wrapping_add(1)
}

/// Whether nothing leaves for another IP version, or where neither the datagram nor the link names an
/// address, or for more bytes than a datagram has.
fn fails_well(sink: &mut UdpSink, sink_by_6: &mut UdpSink) -> bool {
    goes_nowhere(sink, None)
        && goes_nowhere(sink, Some(HERE_BY_6.local))
        && goes_nowhere(sink_by_6, Some(ELSEWHERE))
        && sink.failures() < 5
        && sink.send(&leaving(Some(ELSEWHERE)), &[0u8; 65508]).is_err()
        && sink.failures() == 3
}

#[test]
fn what_has_no_way_fails(rt: HostRuntime) {
    let (_, mut sink) = open(&rt, HERE);
    let (_, mut sink_by_6) = open(&rt, HERE_BY_6);
    assert!(rt; fails_well(&mut sink, &mut sink_by_6));
}

/// Whether there is no socket with this address.
fn is_refused<R: Abort + Net + Clock + Copy + Drop>(rt: &R, local: Underlay) -> bool {
    let ends = Ends {
        local,
        remote: None,
    };
    open_link(rt, ends).is_err()
}

/// There is no socket at an address that is taken, nor at one of another machine.
#[test]
fn addresses_may_be_had_by_others(rt: HostRuntime) {
    let (source, _) = open(&rt, HERE);
    assert!(rt; is_refused(&rt, address_of(&rt, &source)));
    assert!(rt; is_refused(&rt, ELSEWHERE));
    drop(source);
}

/// Whether what leaves by a link to another AS goes to its other end.
fn goes_to_the_other_end<R: Abort + Net + Clock + Copy + Drop>(
    rt: &R,
    near: &UdpSource<R>,
    sink: &mut UdpSink,
    mut far: UdpSource<R>,
) -> bool {
    let from = address_of(rt, near);
    takes(sink, None, &[7, 7, 7]) && gives(&mut far, &from, 3)
}

/// Whether nothing comes back from where nobody listens.
fn is_dead<R: Clock + Drop>(near: &mut UdpSource<R>, sink: &mut UdpSink) -> bool {
    takes(sink, None, b"abc")
        && is_quiet(near)
        && takes(sink, None, b"")
        && sink.failures() == 0
        && near.failures() == 0
}

#[test]
fn a_link_has_one_other_end(rt: HostRuntime) {
    let (far, _) = open(&rt, HERE);
    let ends = Ends {
        local: HERE.local,
        remote: Some(address_of(&rt, &far)),
    };
    let (mut near, mut sink) = open(&rt, ends);
    assert!(rt; goes_to_the_other_end(&rt, &near, &mut sink, far));
    assert!(rt; is_dead(&mut near, &mut sink));
}

/// How long a read takes that finds nothing.
fn length_of_quiet<R: Abort + Clock + Drop>(rt: &R, source: &mut UdpSource<R>) -> Duration {
    let start = Instant::now(rt).expect(rt, "clock");
    assert!(rt; is_quiet(source));
    start.elapsed(rt).expect(rt, "clock")
}

/// A read waits if the source was told to wait before it, and only then.
#[test]
fn a_read_waits_where_it_is_to(rt: HostRuntime) {
    let (mut source, _) = open(&rt, HERE);
    for _ in 0..2 {
        assert!(rt; source.wait());
        assert!(rt; length_of_quiet(&rt, &mut source) >= Duration::from_millis(40));
        // a busy machine may hold this thread up now and then, and not each time
        let mut at_once = false;
        for _ in 0..20 {
            at_once |= length_of_quiet(&rt, &mut source) < Duration::from_millis(40);
        }
        assert!(rt; at_once);
    }
}
