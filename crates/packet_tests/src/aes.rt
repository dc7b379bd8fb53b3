//! Vectors of AES-128.

use aes128_core::{Aes128, VectorAes128};

// The examples of FIPS 197: appendix B, and C.1 of the edition of 2001.
#[test]
fn encrypts_the_examples_of_the_standard(rt: HostRuntime) {
    let examples: [(u128, u128, u128); 2] = [
        (
            0x2b7e151628aed2a6abf7158809cf4f3c,
            0x3243f6a8885a308d313198a2e0370734,
            0x3925841d02dc09fbdc118597196a0b32,
        ),
        (
            0x000102030405060708090a0b0c0d0e0f,
            0x00112233445566778899aabbccddeeff,
            0x69c4e0d86a7b0430d8cdb78070b4c55a,
        ),
    ];
    for (key, block, want) in examples {
        let by_tables = Aes128::new(&key.to_be_bytes()).encrypt(&block.to_be_bytes());
        assert!(rt;
            by_tables == want.to_be_bytes(),
            "by tables, under the key {key:032x}"
        );
        let by_shuffles = VectorAes128::new(&key.to_be_bytes()).encrypt(&block.to_be_bytes());
        assert!(rt;
            by_shuffles == want.to_be_bytes(),
            "by shuffles, under the key {key:032x}"
        );
    }
}

// Keys that differ in one bit of each word.
#[test]
fn tells_keys_apart(rt: HostRuntime) {
    let key: u128 = 0x2b7e151628aed2a6abf7158809cf4f3c;
    let cipher = Aes128::new(&key.to_be_bytes());
    let vector = VectorAes128::new(&key.to_be_bytes());
    assert!(rt; cipher.has_same_key(&Aes128::new(&key.to_be_bytes())));
    assert!(rt; vector.has_same_key(&VectorAes128::new(&key.to_be_bytes())));
    for bit in [0, 32, 64, 96] {
        let other = key ^ (1 << bit);
        assert!(rt; !cipher.has_same_key(&Aes128::new(&other.to_be_bytes())));
        assert!(rt; !vector.has_same_key(&VectorAes128::new(&other.to_be_bytes())));
    }
}
