//! The S-box on the 16 lanes of a vector at once, by shuffles.
//!
//! A shuffle looks up 16 bytes in a table of 16, which is in a register. So no address depends on a byte of the key or
//! of a block, and no branch does.

ghost use Rattle.std.specs.Prelude.{◌≡◌, [], ◌∷◌, map, bit_xor};
ghost use Rattle.std.specs.Simd.Lanes.{zip2, Each1};
ghost use Rattle.aes128_core.specs.Columns.{word_bytes};
ghost use Rattle.aes128_core.specs.Lanes.{all_places, coordinates_of, doubled_of, entry_at, high_of, is_place, last_of, low_of, moved, p_of, q_of, substituted_of};
ghost use Rattle.aes128_core.specs.SBox.{s_box};
ghost use Rattle.aes128_core.specs.State.{xor_words};
ghost use lib.Dec.{T};

use crate::columns::word_at;
use crate::lane_tables::{
    DOUBLED_P, DOUBLED_Q, HIGH_COORDINATES, INVERSES, LAST_P, LAST_Q, LOW_COORDINATES, RATIOS,
    SUBSTITUTED_P, SUBSTITUTED_Q,
};
use std::simd::prelude::*;

// The table's entry at each lane's place.
#[inline(always)]
fn look_up(table: [u8; 16], at: u8x16) -> u8x16
    requires { Each1 (λ j. T (is_place j)) at }
    ensures { result ≡ map (entry_at table) at }
{
    u8x16::from_array(table).swizzle_dyn(at)
}

// The lanes at these places.
#[inline(always)]
pub(crate) fn moved(x: u8x16, places: [u8; 16]) -> u8x16
    requires { T (all_places places) }
    ensures { result ≡ moved x places }
{
    look_up(x.to_array(), u8x16::from_array(places))
}

// The low and the high half of each byte.
#[inline(always)]
fn halves(x: u8x16) -> (u8x16, u8x16)
    ensures { (result.0 ≡ map low_of x) × (result.1 ≡ map high_of x) }
{
    (x & u8x16::splat(15), x >> 4)
}

// The coordinates of each byte.
#[inline(always)]
pub(crate) fn coordinates(x: u8x16) -> u8x16
    ensures { result ≡ map coordinates_of x }
{
    let (low, high) = halves(x);
    let low = look_up(LOW_COORDINATES, low);
    let high = look_up(HIGH_COORDINATES, high);
    low ^ high
}

// The numbers of p and q, of which the inverse of each byte is made, from its coordinates.
#[inline(always)]
fn inverse_parts(x: u8x16) -> (u8x16, u8x16)
    ensures p { result.0 ≡ map p_of x }
    ensures q { result.1 ≡ map q_of x }
    ensures places { (Each1 (λ j. T (is_place j)) result.0) × (Each1 (λ j. T (is_place j)) result.1) }
{
    let (k, i) = halves(x);
    let j = i ^ k;
    let ratio = look_up(RATIOS, k);
    let of_p = look_up(INVERSES, i) ^ ratio;
    let of_q = look_up(INVERSES, j) ^ ratio;
    (look_up(INVERSES, of_p) ^ j, look_up(INVERSES, of_q) ^ i)
}

// The sum of one table's entry at p and another's at q, at each lane.
#[inline(always)]
fn sum_at(for_p: [u8; 16], for_q: [u8; 16], p: u8x16, q: u8x16) -> u8x16
    requires { (Each1 (λ j. T (is_place j)) p) × (Each1 (λ j. T (is_place j)) q) }
    ensures { result ≡ zip2 bit_xor (map (entry_at for_p) p) (map (entry_at for_q) q) }
{
    look_up(for_p, p) ^ look_up(for_q, q)
}

// From coordinates: what the S-box gives at each lane, and its double, both in coordinates and without a constant.
#[inline(always)]
pub(crate) fn substituted(x: u8x16) -> (u8x16, u8x16)
    ensures { (result.0 ≡ map substituted_of x) × (result.1 ≡ map doubled_of x) }
{
    let (p, q) = inverse_parts(x);
    (
        sum_at(SUBSTITUTED_P, SUBSTITUTED_Q, p, q),
        sum_at(DOUBLED_P, DOUBLED_Q, p, q),
    )
}

// From coordinates: what the S-box gives at each lane, as a byte and without its constant.
#[inline(always)]
pub(crate) fn last_substituted(x: u8x16) -> u8x16
    ensures { result ≡ map last_of x }
{
    let (p, q) = inverse_parts(x);
    sum_at(LAST_P, LAST_Q, p, q)
}

// The S-box on each byte.
#[inline(always)]
fn sub_bytes(x: u8x16) -> u8x16
    ensures { result ≡ map s_box x }
{
    last_substituted(coordinates(x)) ^ u8x16::splat(0x63)
}

// The S-box on each of four bytes, and a word added. The key expansion is made of it.
#[inline(always)]
pub(crate) fn substituted_word(a: u8, b: u8, c: u8, d: u8, added: u32) -> u32
    ensures { word_bytes result
        ≡ xor_words (s_box a ∷ s_box b ∷ s_box c ∷ s_box d ∷ []) (word_bytes added) }
{
    let bytes = sub_bytes(u8x16::from_array([
        a, b, c, d, 0, 0, 0, 0, 0, 0, 0, 0, 0, 0, 0, 0,
    ])).to_array();
    word_at(&bytes, 0) ^ added
}
