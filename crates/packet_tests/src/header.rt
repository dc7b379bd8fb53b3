//! Headers, read and written.

use sample_packets::{FIRST, with_bytes};
use scion_header::{
    Address, Domain, Header, HeaderEnds, HeaderFault, Host, NoRoom, Upper, UpperPlace,
    check_header, destination_address, destination_domain, flow_id, front_end, header_is_lawful,
    next_header, payload_length, read_header, source_domain, traffic_class, upper_layer,
    upper_place, write_header,
};

/// The IPv4 host of 1-ff00:0:`number`.
fn address(number: u16, host: [u8; 4]) -> Address {
    Address {
        isd: 1,
        autonomous_system: 0xff00_0000_0000 + u64::from(number),
        kind: 0,
        host: Host::Four(host),
    }
}

/// The header of the datagram, with another protocol after it.
fn header(next_header: u8) -> Header {
    Header {
        traffic_class: 0,
        flow_id: 1,
        next_header,
        header_length: 21,
        payload_length: 8,
        reserved: 0,
        destination: address(0x112, [10, 2, 0, 7]),
        source: address(0x111, [10, 1, 0, 5]),
    }
}

#[test]
fn reads_and_writes_a_datagram(rt: HostRuntime) {
    let header = header(17);
    let ends = HeaderEnds {
        addresses: 36,
        header: 84,
    };
    assert!(rt; check_header(&FIRST) == Ok(ends));
    assert!(rt; read_header(&FIRST) == Ok(header));
    assert!(rt; header.front_len() == 36);
    assert!(rt; header.source.host.length_code() == 0);
    assert!(rt; header.source.host.as_slice() == [10, 1, 0, 5].as_slice());
    let mut room = [0x55; 40];
    assert!(rt; write_header(&header, &mut room[..35]) == Err(NoRoom));
    assert!(rt; write_header(&header, &mut room) == Ok(36));
    let mut written = [0x55; 40];
    written[..36].copy_from_slice(&FIRST[..36]);
    assert!(rt; room == written);
    header_is_lawful();
}

#[test]
fn reads_single_fields(rt: HostRuntime) {
    let domain = |number: u16| Domain {
        isd: 1,
        autonomous_system: 0xff00_0000_0000 + u64::from(number),
    };
    assert!(rt; next_header(&FIRST) == 17);
    assert!(rt; payload_length(&FIRST) == 8);
    assert!(rt; (flow_id(&FIRST), front_end(&FIRST)) == (1, 36));
    assert!(rt; traffic_class(b"\x0b\x8f") == 0xb8);
    assert!(rt; (traffic_class(b"\x0b"), traffic_class(b"")) == (0xb0, 0));
    assert!(rt; destination_domain(&FIRST) == domain(0x112));
    assert!(rt; source_domain(&FIRST) == domain(0x111));
    assert!(rt; destination_address(&FIRST) == address(0x112, [10, 2, 0, 7]));
}

/// Whether both readings refuse the bytes for this fault.
fn is_refused(bytes: &[u8], fault: HeaderFault) -> bool {
    read_header(bytes) == Err(fault) && check_header(bytes) == Err(fault)
}

#[test]
fn refuses_what_is_no_header(rt: HostRuntime) {
    for len in [0, 11, 12, 83] {
        assert!(rt;
            is_refused(&FIRST[..len], HeaderFault::Short),
            "{len} bytes"
        );
    }
    let changes = [
        (0, 0x10, HeaderFault::Version),
        (8, 0x00, HeaderFault::PathType),
        (5, 0x08, HeaderFault::Header),
        (5, 0x18, HeaderFault::Short),
    ];
    for (at, byte, fault) in changes {
        let datagram = with_bytes(FIRST, at, &[byte]);
        assert!(rt; is_refused(&datagram, fault), "byte {at} is {byte}");
    }
}

#[test]
fn finds_the_upper_layer(rt: HostRuntime) {
    // the protocol after the header, what is there, the upper layer's protocol and place if there
    // is one, and what it is
    let layers = [
        (17, b"".as_slice(), Some((17, 0)), Upper::Other),
        (202, b"".as_slice(), Some((202, 0)), Upper::Cut),
        (202, b"\x82".as_slice(), Some((202, 0)), Upper::Scmp(130)),
        // after one extension
        (
            200,
            b"\xca\x00\x00\x00\x04\x33\x00\x00".as_slice(),
            Some((202, 4)),
            Upper::Scmp(4),
        ),
        (
            200,
            b"\xca\x00\x00\x00\x80\x00\x00\x00".as_slice(),
            Some((202, 4)),
            Upper::Scmp(128),
        ),
        (
            201,
            b"\x11\x01\x00\x00\x00\x00\x00\x00".as_slice(),
            Some((17, 8)),
            Upper::Other,
        ),
        (
            200,
            b"\xca\x00\x00\x00".as_slice(),
            Some((202, 4)),
            Upper::Cut,
        ),
        // after both
        (
            200,
            b"\xc9\x00\x00\x00\xca\x01\x00\x00\x00\x00\x00\x00\x82".as_slice(),
            Some((202, 12)),
            Upper::Scmp(130),
        ),
        // extensions that may not be there are not followed, whole or cut
        (
            200,
            b"\xc8\x00\x00\x00\x04\x33\x00\x00".as_slice(),
            Some((200, 4)),
            Upper::Other,
        ),
        (
            200,
            b"\xc8\x00\x00\x00".as_slice(),
            Some((200, 4)),
            Upper::Other,
        ),
        (
            201,
            b"\xc8\x00\x00\x00\xca\x00\x00\x00".as_slice(),
            Some((200, 4)),
            Upper::Other,
        ),
        (
            201,
            b"\xc9\x00\x00\x00\xca".as_slice(),
            Some((201, 4)),
            Upper::Other,
        ),
        // extensions that are not wholly there
        (200, b"".as_slice(), None, Upper::Cut),
        (200, b"\xca".as_slice(), None, Upper::Cut),
        (
            201,
            b"\xca\x01\x00\x00\x00\x00\x00".as_slice(),
            None,
            Upper::Cut,
        ),
        (
            200,
            b"\xc9\x00\x00\x00\xca\x00\x00".as_slice(),
            None,
            Upper::Cut,
        ),
    ];
    for (next_header, bytes, place, upper) in layers {
        let place = place.map(|(protocol, at)| UpperPlace { protocol, at });
        assert!(rt;
            upper_place(next_header, bytes) == place,
            "{next_header} {bytes:?}"
        );
        assert!(rt;
            upper_layer(&header(next_header), bytes) == upper,
            "{next_header} {bytes:?}"
        );
    }
}
