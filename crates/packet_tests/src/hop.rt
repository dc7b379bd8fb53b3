//! Values from outside: a hop field whose MAC was made by OpenSSL, and moments by hand.

use crate::hops::hop_between;
use cmac_core::Cmac;
use hop_check::{beacon, chain, expired, mac_input, verify};
use path_fields::{Hop, Info};
use sample_packets::KEY;

fn info() -> Info {
    Info {
        reserved_flags: 0,
        along: true,
        reserved: 0,
        segment_id: 0x1234,
        timestamp: 1694498816,
    }
}

fn hop(expiry: u8, mac: [u8; 6]) -> Hop {
    hop_between(1, 2, expiry, mac)
}

#[test]
fn makes_the_input(rt: HostRuntime) {
    let input = mac_input(&info(), &hop(0x3f, [0; 6]));
    let wanted = [0, 0, 0x12, 0x34, 0x65, 0, 0, 0, 0, 0x3f, 0, 1, 0, 2, 0, 0];
    assert!(rt; input == wanted);
}

#[test]
fn compares_all_six_bytes(rt: HostRuntime) {
    let cmac = Cmac::new(&KEY);
    let mac = [0x0e, 0x66, 0xd2, 0x97, 0x45, 0x36];
    assert!(rt; verify(&cmac, &info(), &hop(0x3f, mac)));
    for place in 0..6 {
        let mut other = mac;
        other[place] ^= 1;
        assert!(rt; !verify(&cmac, &info(), &hop(0x3f, other)), "byte {place}");
    }
    assert!(rt; chain(0x1234, &mac) == 0x1c52);
    assert!(rt; chain(0x1c52, &mac) == 0x1234);
}

#[test]
fn expires_behind_the_last_moment(rt: HostRuntime) {
    // An expiry, and the last second at which it is good, counted from the timestamp.
    for (expiry, last) in [(0x3f, 21600), (0, 337), (255, 86400)] {
        let end = 1694498816 + last;
        assert!(rt; !expired(&info(), &hop(expiry, [0; 6]), end), "at {last}");
        assert!(rt;
            expired(&info(), &hop(expiry, [0; 6]), end + 1),
            "behind {last}"
        );
    }
    assert!(rt; expired(&info(), &hop(255, [0; 6]), u64::MAX));
    assert!(rt; !expired(&info(), &hop(0, [0; 6]), 0));
}

// The MACs of three ASes in a row, each with a key of its own, by OpenSSL.
#[test]
fn beacons_three_hops(rt: HostRuntime) {
    let first: u128 = 0x000102030405060708090a0b0c0d0e0f;
    let last: u128 = 0x101112131415161718191a1b1c1d1e1f;
    let keys = [
        Cmac::new(&first.to_be_bytes()),
        Cmac::new(&KEY),
        Cmac::new(&last.to_be_bytes()),
    ];
    let mut hops = [
        hop_between(0, 17, 0x3f, [0; 6]),
        hop_between(1, 2, 0x3f, [0; 6]),
        hop_between(18, 0, 0x3f, [0; 6]),
    ];
    beacon(&keys, 0x1234, 1694498816, &mut hops);
    assert!(rt; hops[0].mac == [0x63, 0x49, 0xaa, 0x95, 0xd7, 0x7c]);
    assert!(rt; hops[1].mac == [0x61, 0x93, 0xb6, 0x54, 0x9f, 0x1e]);
    assert!(rt; hops[2].mac == [0x26, 0xd8, 0x50, 0xac, 0x58, 0xd3]);
    assert!(rt; hops[1].construction_egress == 2);
}
