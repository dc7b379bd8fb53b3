//! Ports of end hosts, by packets that were written by hand after the standards' tables.
use host_ports::destination_port;
use sample_packets::FIRST;

/// UDP from port 31000 to port 31500.
const UDP: [u8; 8] = *b"\x79\x18\x7b\x0c\x00\x08\x00\x00";

/// A hop-by-hop extension of 4 bytes and an end-to-end extension of 8, and then the same.
const EXTENDED: [u8; 20] =
    *b"\xc9\x00\x01\x00\x11\x01\x01\x04\x00\x00\x00\x00\x79\x18\x7b\x0c\x00\x08\x00\x00";

/// Echo and traceroute messages whose identifier is 31020.
const ECHO_REQUEST: [u8; 8] = *b"\x80\x00\x12\x34\x79\x2c\x00\x01";

const ECHO_REPLY: [u8; 8] = *b"\x81\x00\x12\x34\x79\x2c\x00\x01";

const TRACEROUTE_REPLY: [u8; 8] = *b"\x83\x00\x12\x34\x79\x2c\x00\x01";

#[test]
fn tells_the_port_of_a_packet(rt: HostRuntime) {
    let cases = [
        (17, UDP.as_slice(), Some(31500)),
        (17, &UDP[..7], None),
        (200, EXTENDED.as_slice(), Some(31500)),
        (200, &EXTENDED[..11], None),
        (202, ECHO_REPLY.as_slice(), Some(31020)),
        (202, &ECHO_REPLY[..7], None),
        (202, TRACEROUTE_REPLY.as_slice(), Some(31020)),
        (202, ECHO_REQUEST.as_slice(), None),
        (6, UDP.as_slice(), None),
    ];
    for (next_header, bytes, port) in cases {
        assert!(rt;
            destination_port(next_header, bytes) == port,
            "{next_header}"
        );
    }
}

#[test]
fn tells_the_port_of_a_quoted_packet(rt: HostRuntime) {
    // a parameter problem that quotes the first datagram, whose UDP ports are 30041
    let mut message = [0; 100];
    message[0] = 4;
    message[8..].copy_from_slice(&FIRST);
    assert!(rt; destination_port(202, &message) == Some(30041));
    // as far as the source port, and a byte less
    assert!(rt; destination_port(202, &message[..94]) == Some(30041));
    assert!(rt; destination_port(202, &message[..93]) == None);
    // whatever the type of its path
    message[16] = 3;
    assert!(rt; destination_port(202, &message) == Some(30041));
}
