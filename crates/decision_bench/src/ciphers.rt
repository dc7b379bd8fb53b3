//! The ciphers and the check of a MAC, for a C program that tries what their time depends on (`make constant-time`).

ghost use Rattle.std.specs.Prelude.{◌≡◌, if◌then◌else◌, [], ◌∷◌, ◌++◌, take};
ghost use Rattle.std.specs.Int.{from_be_bytes, to_be_bytes, w16, w32, w64};
ghost use Rattle.std.specs.Str.{bytes_eq};
ghost use Rattle.aes128_core.specs.Aes128.{cipher};
ghost use Rattle.cmac_core.specs.Cmac.{tag};

use aes128_core::{Aes128, VectorAes128};
use cmac_core::Cmac;
use hop_check::verify;
use path_fields::{Hop, Info};

// The first eight bytes of a block as a number.
fn front(block: [u8; 16]) -> u64
    ensures { result ≡ from_be_bytes w64 (take 8 block) }
{
    let [a, b, c, d, e, f, g, h, ..] = block;
    u64::from_be_bytes([a, b, c, d, e, f, g, h])
}

/// The first eight bytes of the block encrypted by shuffles, as a number.
#[unsafe(no_mangle)]
pub extern "C" fn decision_bench_vector(key: &[u8; 16], block: &[u8; 16]) -> u64
    ensures { result ≡ from_be_bytes w64 (take 8 (cipher key.now block.now)) }
{
    front(VectorAes128::new(key).encrypt(block))
}

/// The first eight bytes of the block encrypted by tables, as a number.
#[unsafe(no_mangle)]
pub extern "C" fn decision_bench_tables(key: &[u8; 16], block: &[u8; 16]) -> u64
    ensures { result ≡ from_be_bytes w64 (take 8 (cipher key.now block.now)) }
{
    front(Aes128::new(key).encrypt(block))
}

/// The first eight bytes of the message's tag, as a number.
#[unsafe(no_mangle)]
pub extern "C" fn decision_bench_tag(key: &[u8; 16], message: &[u8]) -> u64
    ensures { result ≡ from_be_bytes w64 (take 8 (tag key.now message.now)) }
{
    front(Cmac::new(key).tag(message))
}

/// Whether the key gives the hop field of expiry 63 from interface 1 to interface 2 this MAC, in a segment of this
/// identifier and timestamp: 1 if it does, else 0.
#[unsafe(no_mangle)]
pub extern "C" fn decision_bench_verify(
    key: &[u8; 16],
    segment_id: u16,
    timestamp: u32,
    mac: &[u8; 6],
) -> u64
    ensures { result
        ≡ if bytes_eq mac.now (take 6 (tag key.now (0 ∷ 0 ∷ (to_be_bytes w16 segment_id ++ to_be_bytes w32 timestamp) ++ 0 ∷ 63 ∷ 0 ∷ 1 ∷ 0 ∷ 2 ∷ 0 ∷ 0 ∷ []))) then 1 else 0 }
{
    let info = Info {
        reserved_flags: 0,
        along: true,
        reserved: 0,
        segment_id,
        timestamp,
    };
    let hop = Hop {
        reserved_flags: 0,
        ingress_alert: false,
        egress_alert: false,
        expiry: 63,
        construction_ingress: 1,
        construction_egress: 2,
        mac: *mac,
    };
    u64::from(verify(&Cmac::new(key), &info, &hop))
}
