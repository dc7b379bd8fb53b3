//! Vectors of AES-CMAC.

use cmac_core::Cmac;

// The key of RFC 4493's examples, section 4.
const KEY: u128 = 0x2b7e151628aed2a6abf7158809cf4f3c;

// The message of 64 bytes whose beginnings are the examples' messages.
const MESSAGE: [u8; 64] = [
    0x6b, 0xc1, 0xbe, 0xe2, 0x2e, 0x40, 0x9f, 0x96, 0xe9, 0x3d, 0x7e, 0x11, 0x73, 0x93, 0x17, 0x2a,
    0xae, 0x2d, 0x8a, 0x57, 0x1e, 0x03, 0xac, 0x9c, 0x9e, 0xb7, 0x6f, 0xac, 0x45, 0xaf, 0x8e, 0x51,
    0x30, 0xc8, 0x1c, 0x46, 0xa3, 0x5c, 0xe4, 0x11, 0xe5, 0xfb, 0xc1, 0x19, 0x1a, 0x0a, 0x52, 0xef,
    0xf6, 0x9f, 0x24, 0x45, 0xdf, 0x4f, 0x9b, 0x17, 0xad, 0x2b, 0x41, 0x7b, 0xe6, 0x6c, 0x37, 0x10,
];

#[test]
fn tags_the_examples_of_the_standard(rt: HostRuntime) {
    let examples: [(&[u8], u128); 4] = [
        (&[], 0xbb1d6929e95937287fa37d129b756746),
        (&MESSAGE[..16], 0x070a16b46b4d4144f79bdd9dd04a287c),
        (&MESSAGE[..40], 0xdfa66747de9ae63030ca32611497c827),
        (&MESSAGE, 0x51f0bebf7e3b9d92fc49741779363cfe),
    ];
    let cmac = Cmac::new(&KEY.to_be_bytes());
    for (message, want) in examples {
        let got = u128::from_be_bytes(cmac.tag(message));
        assert!(rt; got == want, "at {} bytes", message.len());
    }
}

// The standard's one block, and a block such as a hop field's MAC is made of. The second value is
// that of `openssl mac -cipher AES-128-CBC CMAC` (OpenSSL 3.0).
#[test]
fn tags_one_block_in_six_bytes(rt: HostRuntime) {
    let examples: [(u128, [u8; 6]); 2] = [
        (
            0x6bc1bee22e409f96e93d7e117393172a,
            [0x07, 0x0a, 0x16, 0xb4, 0x6b, 0x4d],
        ),
        (
            0x0000123465000000003f000100020000,
            [0x0e, 0x66, 0xd2, 0x97, 0x45, 0x36],
        ),
    ];
    let cmac = Cmac::new(&KEY.to_be_bytes());
    for (block, want) in examples {
        assert!(rt;
            cmac.tag6_block(&block.to_be_bytes()) == want,
            "of the block {block:032x}"
        );
    }
}

// Keys that differ in one bit of their first or of their last byte.
#[test]
fn tells_keys_apart(rt: HostRuntime) {
    let cmac = Cmac::new(&KEY.to_be_bytes());
    assert!(rt; cmac.has_same_key(&Cmac::new(&KEY.to_be_bytes())));
    assert!(rt; !cmac.has_same_key(&Cmac::new(&(KEY ^ 1).to_be_bytes())));
    assert!(rt; !cmac.has_same_key(&Cmac::new(&(KEY ^ (1 << 127)).to_be_bytes())));
}
