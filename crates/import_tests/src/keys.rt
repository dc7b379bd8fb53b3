//! Vectors of HMAC and of derived keys.

use crate::joined;
use key_derivation::{derived_block, forwarding_key, hmac_sha256};

// A byte in each place of a key or a text.
const KEYS: [[u8; 131]; 2] = [[0x0b; 131], [0xaa; 131]];

const DD: [u8; 50] = [0xdd; 50];

// The cases 1 to 3, 6 and 7 of RFC 4231, section 4, with their HMAC-SHA-256.
#[test]
fn codes_the_examples_of_the_standard(rt: HostRuntime) {
    let cases: [(&[u8], &[u8], u128, u128); 5] = [
        (
            &KEYS[0][..20],
            b"Hi There",
            0xb0344c61d8db38535ca8afceaf0bf12b,
            0x881dc200c9833da726e9376c2e32cff7,
        ),
        (
            b"Jefe",
            b"what do ya want for nothing?",
            0x5bdcc146bf60754e6a042426089575c7,
            0x5a003f089d2739839dec58b964ec3843,
        ),
        (
            &KEYS[1][..20],
            &DD,
            0x773ea91e36800e46854db8ebd09181a7,
            0x2959098b3ef8c122d9635514ced565fe,
        ),
        (
            &KEYS[1],
            b"Test Using Larger Than Block-Size Key - Hash Key First",
            0x60e431591ee0b67f0d8a26aacbf5b77f,
            0x8e0bc6213728c5140546040f0ee37f54,
        ),
        (
            &KEYS[1],
            b"This is a test using a larger than block-size key and a larger than block-size data. The key needs to be hashed before being used by the HMAC algorithm.",
            0x9b09ffa71b942fcb27635fbcd5b0e944,
            0xbfdc63644f0713938a7f51535c3a35e2,
        ),
    ];
    for (key, text, first, last) in cases {
        let code = hmac_sha256(key, text);
        assert!(rt;
            code == joined(first, last),
            "under a key of {} bytes",
            key.len()
        );
    }
}

// The two cases of RFC 7914, section 11: a derived key of 64 bytes is two blocks.
#[test]
fn derives_the_examples_of_the_standard(rt: HostRuntime) {
    let cases: [(&[u8], &[u8], u32, u32, u128, u128); 4] = [
        (
            b"passwd",
            b"salt",
            1,
            1,
            0x55ac046e56e3089fec1691c22544b605,
            0xf94185216dde0465e68b9d57c20dacbc,
        ),
        (
            b"passwd",
            b"salt",
            1,
            2,
            0x49ca9cccf179b645991664b39d77ef31,
            0x7c71b845b1e30bd509112041d3a19783,
        ),
        (
            b"Password",
            b"NaCl",
            80000,
            1,
            0x4ddcd8f60b98be21830cee5ef22701f9,
            0x641a4418d04c0414aeff08876b34ab56,
        ),
        (
            b"Password",
            b"NaCl",
            80000,
            2,
            0xa1d425a1225833549adb841b51c9b317,
            0x6a272bdebba1d078478f62b397f33c8d,
        ),
    ];
    for (password, salt, iterations, index, first, last) in cases {
        assert!(rt; iterations > 0);
        let block = derived_block(password, salt, iterations, index);
        assert!(rt;
            block == joined(first, last),
            "{iterations} iterations, block {index}"
        );
    }
}

// By Python's `hashlib.pbkdf2_hmac`: master keys of 16 bytes, 0 to 15, and of 100 bytes, longer than a block of the hash.
#[test]
fn derives_forwarding_keys(rt: HostRuntime) {
    let master: u128 = 0x000102030405060708090a0b0c0d0e0f;
    let key = forwarding_key(&master.to_be_bytes());
    assert!(rt; u128::from_be_bytes(key) == 0x014f838b9e1db547479909e7710bc7c8);
    let key = forwarding_key(&[0x5a; 100]);
    assert!(rt; u128::from_be_bytes(key) == 0x050b0fe4064ad7ae8c42d5f44e0f0e87);
}
