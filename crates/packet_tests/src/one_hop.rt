//! Values from outside: a one-hop packet on its way out and in, whose MACs were made by OpenSSL.

use cmac_core::Cmac;
use hop_check::{chain, hop_mac, verify};
use path_fields::{
    Hop, Info, PathFault, check_one_hop, one_hop_first, one_hop_info, set_one_hop_seg_id,
    set_second_hop, write_one_hop,
};
use sample_packets::KEY;
use scion_header::{
    HeaderFault, NoRoom, check_header, check_header_as, read_header, write_header_as,
};

/// The path with which a beacon sets out from interface 2, until its second hop field is made.
const SETS_OUT: [u8; 32] = *b"\x01\x00\x12\x34\x65\x00\x00\x00\
    \x00\x3f\x00\x00\x00\x02\x90\x81\xb9\x9e\x8a\xc7\
    \x00\x00\x00\x00\x00\x00\x00\x00\x00\x00\x00\x00";

/// The headers before it, for a packet from 1-ff00:0:110 to service 2 of 1-ff00:0:112.
const HEADERS: [u8; 36] = *b"\x00\x00\x00\x01\x11\x11\x00\x00\x02\x40\x00\x00\
    \x00\x01\xff\x00\x00\x00\x01\x12\x00\x01\xff\x00\x00\x00\x01\x10\x00\x02\x00\x00\x0a\x00\x00\x05";

/// The path with other flags in its info field.
fn with_flags(flags: u8) -> [u8; 32] {
    let mut path = SETS_OUT;
    path[0] = flags;
    path
}

#[test]
fn tests_a_one_hop_path(rt: HostRuntime) {
    assert!(rt; check_one_hop(&SETS_OUT).is_ok());
    assert!(rt; check_one_hop(&with_flags(0xfd)).is_ok());
    assert!(rt; check_one_hop(&SETS_OUT[..31]) == Err(PathFault::Header));
    assert!(rt; check_one_hop(&[]) == Err(PathFault::Header));
    assert!(rt; check_one_hop(&with_flags(0)) == Err(PathFault::Path));
    // The peering flag is looked at first.
    assert!(rt; check_one_hop(&with_flags(2)) == Err(PathFault::Peering));
    assert!(rt; check_one_hop(&with_flags(3)) == Err(PathFault::Peering));
}

/// Whether these are the fields of the path that sets out.
fn are_read(info: &Info, first: &Hop) -> bool {
    info.along
        && (info.segment_id, info.timestamp) == (0x1234, 1694498816)
        && first.expiry == 0x3f
        && (first.construction_ingress, first.construction_egress) == (0, 2)
}

#[test]
fn reads_a_one_hop_path(rt: HostRuntime) {
    let info = one_hop_info(&SETS_OUT);
    let first = one_hop_first(&SETS_OUT);
    assert!(rt; are_read(&info, &first));
    let cmac = Cmac::new(&KEY);
    assert!(rt; hop_mac(&cmac, &info, &first) == [0x90, 0x81, 0xb9, 0x9e, 0x8a, 0xc7]);
    assert!(rt; verify(&cmac, &info, &first));
    assert!(rt; chain(info.segment_id, &first.mac) == 0x82b5);
}

#[test]
fn writes_a_one_hop_path(rt: HostRuntime) {
    let mut out = [0xc3; 40];
    write_one_hop(
        &one_hop_info(&SETS_OUT),
        &one_hop_first(&SETS_OUT),
        &mut out,
        4,
    );
    assert!(rt; out[..4] == [0xc3; 4]);
    assert!(rt; out[4..].starts_with(&SETS_OUT));
    assert!(rt; out[36..] == [0xc3; 4]);
}

#[test]
fn writes_a_header_for_its_path_type(rt: HostRuntime) {
    // Read as that of a SCION path, since a header doesn't tell its path's type.
    let mut datagram = [0; 68];
    datagram[..36].copy_from_slice(&HEADERS);
    datagram[8] = 1;
    let header = read_header(&datagram).expect(&rt, "a header");
    let mut out = [0xc3; 40];
    assert!(rt; write_header_as(2, &header, &mut out[..35]) == Err(NoRoom));
    assert!(rt; write_header_as(2, &header, &mut out) == Ok(36));
    assert!(rt; out.starts_with(&HEADERS));
    assert!(rt; out[36..] == [0xc3; 4]);
}

#[test]
fn sets_the_identifier_of_a_one_hop_path(rt: HostRuntime) {
    let mut path = SETS_OUT;
    set_one_hop_seg_id(&mut path, 0x82b5);
    assert!(rt; path[..2] == SETS_OUT[..2]);
    assert!(rt; path[2..4] == [0x82, 0xb5]);
    assert!(rt; path[4..] == SETS_OUT[4..]);
}

#[test]
fn makes_the_second_hop(rt: HostRuntime) {
    // It came into 1-ff00:0:110 by link 1, with this identifier and timestamp.
    let info = Info {
        reserved_flags: 0,
        along: true,
        reserved: 0,
        segment_id: 0x717d,
        timestamp: 1694498816,
    };
    let mut hop = Hop {
        reserved_flags: 0,
        ingress_alert: false,
        egress_alert: false,
        expiry: 0x3f,
        construction_ingress: 1,
        construction_egress: 0,
        mac: [0; 6],
    };
    hop.mac = hop_mac(&Cmac::new(&KEY), &info, &hop);
    let mut path = [0xc3; 32];
    set_second_hop(&mut path, &hop);
    assert!(rt; path.starts_with(&[0xc3; 20]));
    let wanted = [
        0x00, 0x3f, 0x00, 0x01, 0x00, 0x00, 0xf0, 0x82, 0x1d, 0xdd, 0x92, 0x7c,
    ];
    assert!(rt; path[20..].starts_with(&wanted));
}

#[test]
fn tests_a_header_for_its_path_type(rt: HostRuntime) {
    let mut datagram = [0; 68];
    datagram[..36].copy_from_slice(&HEADERS);
    datagram[36..].copy_from_slice(&SETS_OUT);
    let ends = check_header_as(2, &datagram).expect(&rt, "a one-hop header");
    assert!(rt; (ends.addresses, ends.header) == (36, 68));
    assert!(rt; check_header(&datagram) == Err(HeaderFault::PathType));
    assert!(rt; check_header_as(2, &datagram[..67]) == Err(HeaderFault::Short));
    datagram[8] = 1;
    assert!(rt; check_header_as(2, &datagram) == Err(HeaderFault::PathType));
    assert!(rt; check_header(&datagram).is_ok());
}
