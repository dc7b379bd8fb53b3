//! The timing program's datagrams are decided as it expects.

use super::ciphers::*;
use super::*;
use sample_packets::{FIRST, IN_TIME, PATH_AT, with_bytes};
use std::test::*;

/// How the first datagram arrives at the timing program.
const ARRIVED: Arrived = Arrived {
    begin: 0,
    end: 92,
    moment: IN_TIME,
    address: 0x0a01_0002,
    port: 40000,
    link: 1,
    places: [36, 42, 43, 42, 43],
    values: [0x01, 0x12, 0x34, 0x12, 0x34],
};

#[test]
fn tells_of_rounds(rt: HostRuntime) {
    let mut bytes = FIRST;
    // each time it is sent without an address, by link 2
    assert_eq!(rt;
        decision_bench_rounds(rt.alloc(), 5, &[ARRIVED], &mut bytes),
        15
    );
    assert!(rt; bytes == FIRST);
}

#[test]
fn tells_once(rt: HostRuntime) {
    let mut bytes = FIRST;
    let told = decision_bench_once(rt.alloc(), &ARRIVED, &mut bytes);
    assert_eq!(rt; (told.kind, told.what, told.place), (1, 2, 0));
    // the cursor at the third hop, and the identifier with the MAC's first two bytes xored in
    let wanted = with_bytes(with_bytes(FIRST, PATH_AT, &[0x02]), 42, &[0x1c, 0x52]);
    assert!(rt; bytes == wanted);
}

// FIPS 197, appendix B; RFC 4493, section 4, the message of no bytes; and a MAC made by OpenSSL.
#[test]
fn hands_out_the_ciphers(rt: HostRuntime) {
    let key = 0x2b7e151628aed2a6abf7158809cf4f3cu128.to_be_bytes();
    let block = 0x3243f6a8885a308d313198a2e0370734u128.to_be_bytes();
    assert!(rt; decision_bench_vector(&key, &block) == 0x3925841d02dc09fb);
    assert!(rt; decision_bench_tables(&key, &block) == 0x3925841d02dc09fb);
    assert!(rt; decision_bench_tag(&key, &[]) == 0xbb1d6929e9593728);
    let mac = [0x0e, 0x66, 0xd2, 0x97, 0x45, 0x36];
    assert!(rt; decision_bench_verify(&key, 0x1234, 0x6500_0000, &mac) == 1);
    assert!(rt; decision_bench_verify(&key, 0x1235, 0x6500_0000, &mac) == 0);
}
