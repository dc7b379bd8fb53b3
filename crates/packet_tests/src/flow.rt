//! Flows and their processors.

use flow_key::{FlowKey, flow_of, fnv1a, processor_of};

/// The header of a datagram of flow 1 from 1-ff00:0:111, 10.1.0.5 to 1-ff00:0:112, 10.2.0.7, and no
/// path: nothing of the path belongs to the flow.
const HEADER: [u8; 36] = *b"\x00\x00\x00\x01\x11\x09\x00\x08\x01\x00\x00\x00\
    \x00\x01\xff\x00\x00\x00\x01\x12\x00\x01\xff\x00\x00\x00\x01\x11\x0a\x02\x00\x07\x0a\x01\x00\x05";

/// The key of the first flow, in one of the bands.
fn first_flow(high: bool) -> FlowKey<'static> {
    FlowKey {
        flow_id: 1,
        host_kinds: 0,
        addresses: b"\x00\x01\xff\x00\x00\x00\x01\x12\x00\x01\xff\x00\x00\x00\x01\x11\x0a\x02\x00\x07\x0a\x01\x00\x05",
        high,
    }
}

/// Whether these bytes are of the first flow, and in this band where there are two.
fn is_first_flow(bytes: &[u8], high: bool) -> bool {
    flow_of(bytes, true) == Some(first_flow(high))
        && flow_of(bytes, false) == Some(first_flow(false))
}

#[test]
fn tells_the_flow(rt: HostRuntime) {
    assert!(rt; is_first_flow(&HEADER, false));
    assert!(rt; flow_of(&HEADER[..35], false).is_none());
    // the traffic class of expedited forwarding, with any of the two bits after it, and its neighbours
    let classes = [(0x80, true), (0xb0, true), (0x70, false), (0xc0, false)];
    for (second, high) in classes {
        let mut bytes = HEADER;
        bytes[0] = 0x0b;
        bytes[1] = second;
        assert!(rt; is_first_flow(&bytes, high), "{second:x}");
    }
}

#[test]
fn hashes(rt: HostRuntime) {
    let hashes = [
        (b"".as_slice(), 0x811c_9dc5),
        (b"a".as_slice(), 0xe40c_292c),
        (b"foobar".as_slice(), 0xbf9c_f968),
    ];
    for (bytes, hash) in hashes {
        assert!(rt; fnv1a(0x811c_9dc5, bytes) == hash);
    }
}

#[test]
fn spreads_flows_over_processors(rt: HostRuntime) {
    let mut second = HEADER;
    second[3] = 2;
    for (seed, n, processors) in [
        (0, 2, (0, 1)),
        (1, 2, (1, 0)),
        (0, 3, (1, 0)),
        (1, 16, (15, 0)),
        (u32::MAX, 1, (0, 0)),
    ] {
        let first = flow_of(&HEADER, false).expect(&rt, "a header");
        let other = flow_of(&second, true).expect(&rt, "a header");
        assert!(rt;
            (processor_of(&first, seed, n), processor_of(&other, seed, n)) == processors,
            "seed {seed}, {n} processors"
        );
    }
}

#[test]
fn hashes_hosts_of_other_lengths(rt: HostRuntime) {
    // a service of four bytes and a source of sixteen, with all bits of the FlowID in use
    let mut bytes = [0; 48];
    bytes[..12].copy_from_slice(b"\x0b\x8a\xbc\xde\x11\x0c\x00\x08\x01\x4f\x00\x00");
    bytes[12..36].copy_from_slice(&HEADER[12..]);
    for k in 0..12u8 {
        bytes[usize::from(k) + 36] = k;
    }
    let key = flow_of(&bytes, true).expect(&rt, "a header");
    assert!(rt;
        (key.flow_id, key.host_kinds, key.addresses.len(), key.high) == (0xabcde, 0x4f, 36, true)
    );
    assert!(rt; processor_of(&key, 7, 5) == 1);
}
