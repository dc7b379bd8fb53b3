//! The ports at which hosts listen for whole datagrams, over paths of both types. The ports are those of the model in
//! `tests/scion.py`; where each of a packet's parts is read is tried by `tests/lines`.

use process_packet::{Config, host_port_of};
use router_config::read_config;
use sample_packets::{CONFIGURATION, FIRST, PAYLOAD_AT, with_bytes};
use scion_header::check_header_as;
use std::process::Abort;
use std::test::*;

/// UDP to port 31500 over a path of one hop.
const ONE_HOP: [u8; 76] = *b"\x00\x00\x00\x01\x11\x11\x00\x08\x02\x00\x00\x00\
    \x00\x01\xff\x00\x00\x00\x01\x10\x00\x01\xff\x00\x00\x00\x01\x11\x0a\x00\x00\x4d\x0a\x01\x00\x05\
    \x01\x00\x71\x7d\x65\x00\x00\x00\x00\x3f\x00\x00\x00\x11\x63\x49\xaa\x95\xd7\x7c\
    \x00\x00\x00\x00\x00\x00\x00\x00\x00\x00\x00\x00\x75\x59\x7b\x0c\x00\x08\x00\x00";

/// An SCMP error message over a SCION path that quotes UDP from port 31500 over a path of one hop.
const QUOTE: [u8; 168] = *b"\x00\x00\x00\x01\xca\x15\x00\x54\x01\x00\x00\x00\
    \x00\x01\xff\x00\x00\x00\x01\x10\x00\x01\xff\x00\x00\x00\x01\x11\x0a\x00\x00\x4d\x0a\x01\x00\x05\
    \x02\x00\x30\x00\x01\x00\x12\x34\x65\x00\x00\x00\x00\x3f\x00\x00\x00\x11\xa0\xa1\xa2\xa3\xa4\xa5\
    \x00\x3f\x00\x01\x00\x02\xc0\xc1\xc2\xc3\xc4\xc5\x00\x3f\x00\x01\x00\x00\xf4\x5c\x25\xcf\xe9\x4d\
    \x04\x33\x00\x00\x00\x00\x00\x3c\
    \x00\x00\x00\x01\x11\x11\x00\x08\x02\x00\x00\x00\
    \x00\x01\xff\x00\x00\x00\x01\x11\x00\x01\xff\x00\x00\x00\x01\x10\x0a\x01\x00\x05\x0a\x00\x00\x4d\
    \x01\x00\x12\x34\x65\x00\x00\x00\x00\x3f\x00\x00\x00\x11\xa0\xa1\xa2\xa3\xa4\xa5\
    \x00\x00\x00\x00\x00\x00\x00\x00\x00\x00\x00\x00\x7b\x0c\x01\xbb\x00\x08\x00\x00";

/// The router with these ports for applications: a line of its configuration.
fn router(rt: &(impl AllocGlobal + Abort), ports: &str) -> Config {
    let text = CONFIGURATION
        .replace(rt.alloc(), "seed = 0\n", ports)
        .expect(rt, "memory");
    read_config(rt.alloc(), text.as_str()).expect(rt, "configuration")
}

/// Whether the header of a datagram has no fault, and its host listens at this port.
fn listens_at(config: &Config, bytes: &[u8], port: u16) -> bool {
    if bytes.len() < 12 {
        return false;
    }
    match check_header_as(bytes[8], bytes) {
        Ok(_) => host_port_of(config, bytes) == port,
        Err(_) => false,
    }
}

/// The same for UDP to a port.
fn udp_listens_at(config: &Config, to: u16, port: u16) -> bool {
    let datagram = with_bytes(FIRST, PAYLOAD_AT + 2, &to.to_be_bytes());
    listens_at(config, &datagram, port)
}

#[test]
fn hosts_listen_at_their_own_ports(rt: HostRuntime) {
    let config = router(&rt, "seed = 0\ndispatched_ports = [31000, 32767]\n");
    let cases = [
        (30999, 30041),
        (31000, 31000),
        (31500, 31500),
        (32767, 32767),
        (32768, 30041),
    ];
    for (to, port) in cases {
        assert!(rt; udp_listens_at(&config, to, port), "{to}");
    }
    assert!(rt; listens_at(&config, &ONE_HOP, 31500), "one hop");
    assert!(rt; listens_at(&config, &QUOTE, 31500), "a quote");
    drop(config);
}

#[test]
fn hosts_listen_at_one_port(rt: HostRuntime) {
    let config = router(&rt, "seed = 0\n");
    assert!(rt; udp_listens_at(&config, 31500, 30041));
    assert!(rt; listens_at(&config, &ONE_HOP, 30041), "one hop");
    assert!(rt; listens_at(&config, &QUOTE, 30041), "a quote");
    drop(config);
}
