//! The rounds of the cipher, on the 16 lanes of a vector in coordinates (FIPS 197, section 5.1).
//!
//! Coordinates of a sum are the sum of the coordinates, so round keys are added in coordinates too. What the look-ups
//! leave out of the S-box's constant comes to that constant once in each round, and stands in the round keys.

ghost use Rattle.std.specs.Prelude.{◌≡◌};
ghost use Rattle.aes128_core.specs.Lanes.{all_places};
ghost use Rattle.aes128_core.specs.LaneRounds.{round_lanes, last_round_lanes};
ghost use lib.Dec.{T};

use crate::lane_tables::LAST_SHIFT;
use crate::lanes::{last_substituted, moved, substituted};
use std::simd::prelude::*;

// Rounds 1 to 9, where `below` and `above` are the lanes of the next row and of the row before.
//
// MixColumns gives each row its own byte twice, the next row's three times, and those of the other two rows once. So
// with `sum`, a row's byte twice and the next row's, it is `sum`, the next row's `sum` and the byte of the row before.
#[inline(always)]
pub(crate) fn round(x: u8x16, key: u8x16, below: [u8; 16], above: [u8; 16]) -> u8x16
    requires { (T (all_places below)) × (T (all_places above)) }
    ensures { result ≡ round_lanes below above x key }
{
    let (plain, doubled) = substituted(x);
    let sum = doubled ^ moved(plain, below);
    moved(plain, above) ^ key ^ sum ^ moved(sum, below)
}

// Round 10, which has no MixColumns and leaves coordinates.
#[inline(always)]
pub(crate) fn last_round(x: u8x16, key: u8x16) -> u8x16
    ensures { result ≡ last_round_lanes x key }
{
    moved(last_substituted(x), LAST_SHIFT) ^ key
}
