//! The round keys as the rounds on lanes add them.

ghost use Rattle.std.specs.Prelude.{◌≡◌, ◌<◌, map};
ghost use Rattle.aes128_core.specs.Columns.{word_bytes};
ghost use Rattle.aes128_core.specs.Lanes.{all_places};
ghost use Rattle.aes128_core.specs.RoundKeys.{inner_key, last_key, round_key};
ghost use lib.Dec.{T};

use crate::lanes::{coordinates, moved};
use crate::rounds::block_of;
use std::simd::prelude::*;

// The words `4 * n` to `4 * n + 3` of the key schedule, byte after byte.
fn round_key(words: &[u32; 44], n: usize) -> [u8; 16]
    requires { n < 11 }
    ensures { result ≡ round_key (map word_bytes words.now) n }
{
    block_of([
        words[4 * n],
        words[4 * n + 1],
        words[4 * n + 2],
        words[4 * n + 3],
    ])
}

// The key of a round from 1 to 9: with the S-box's constant, in coordinates, and in the order of the lanes.
pub(crate) fn inner_key(words: &[u32; 44], n: usize, order: [u8; 16]) -> [u8; 16]
    requires { (n < 11) × (T (all_places order)) }
    ensures { result ≡ inner_key (map word_bytes words.now) n order }
{
    let key = u8x16::from_array(round_key(words, n)) ^ u8x16::splat(0x63);
    moved(coordinates(key), order).to_array()
}

// The key of round 10: with the S-box's constant.
pub(crate) fn last_key(words: &[u32; 44]) -> [u8; 16]
    ensures { result ≡ last_key (map word_bytes words.now) }
{
    (u8x16::from_array(round_key(words, 10)) ^ u8x16::splat(0x63)).to_array()
}
