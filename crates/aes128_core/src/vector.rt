//! The cipher by shuffles.

ghost use Rattle.std.specs.Prelude.{◌≡◌, ℕ, List};
ghost use Rattle.std.specs.Str.{bytes_eq};
ghost use Rattle.aes128_core.specs.Aes128.{cipher};
ghost use Rattle.aes128_core.specs.KeyExpansion.{key_expansion};
ghost use Rattle.aes128_core.specs.RoundKeys.{inner_keys, last_key};
ghost use Rattle.aes128_core.specs.State.{AreBytes};

use crate::key_expansion::expand;
use crate::lane_rounds::{last_round, round};
use crate::lane_tables::{
    ABOVE_0, ABOVE_1, ABOVE_2, ABOVE_3, BELOW_0, BELOW_1, BELOW_2, BELOW_3, ORDER_0, ORDER_1,
    ORDER_2, ORDER_3,
};
use crate::lanes::coordinates;
use crate::round_keys::{inner_key, last_key};
use std::marker::Model;
use std::simd::prelude::*;

/// An AES-128 key, expanded and ready to encrypt blocks by shuffles.
///
/// It takes 176 bytes, and contracts see it as its key, a list of 16 bytes.
#[derive(Drop)]
pub struct VectorAes128 {
    key: [u8; 16],
    // The keys of rounds 1 to 9, with the S-box's constant, in coordinates and in the order of the lanes.
    inner: [[u8; 16]; 9],
    // The key of round 10, with the S-box's constant.
    last: [u8; 16],
}

impl Model for VectorAes128 {
    ghost Value = { List ℕ };

    ghost view = { λ a. a.key };

    ghost invariant = { λ a. (a.inner ≡ inner_keys (key_expansion a.key))
        × (a.last ≡ last_key (key_expansion a.key))
        × AreBytes a.key };
}

impl VectorAes128 {
    /// Expands a key of 16 bytes, the first byte first (FIPS 197, section 5.2).
    ///
    /// The key schedule is computed here alone, so keep the value as long as the key is used.
    pub fn new(key: &[u8; 16]) -> VectorAes128
        ensures { result ≡ key.now }
    {
        let words = expand(key);
        VectorAes128 {
            key: *key,
            inner: [
                inner_key(&words, 1, ORDER_1),
                inner_key(&words, 2, ORDER_2),
                inner_key(&words, 3, ORDER_3),
                inner_key(&words, 4, ORDER_0),
                inner_key(&words, 5, ORDER_1),
                inner_key(&words, 6, ORDER_2),
                inner_key(&words, 7, ORDER_3),
                inner_key(&words, 8, ORDER_0),
                inner_key(&words, 9, ORDER_1),
            ],
            last: last_key(&words),
        }
    }

    /// Whether both are the same key.
    pub fn has_same_key(&self, other: &VectorAes128) -> bool
        ensures { result ≡ bytes_eq self.now other.now }
    {
        self.key == other.key
    }

    /// Encrypts one block of 16 bytes: the standard's `Cipher` of 10 rounds (FIPS 197, section 5.1).
    pub fn encrypt(&self, block: &[u8; 16]) -> [u8; 16]
        ensures { result ≡ cipher self.now block.now }
    {
        let keys = &self.inner;
        let x = coordinates(u8x16::from_array(*block) ^ u8x16::from_array(self.key));
        let x = round(x, u8x16::from_array(keys[0]), BELOW_1, ABOVE_1);
        let x = round(x, u8x16::from_array(keys[1]), BELOW_2, ABOVE_2);
        let x = round(x, u8x16::from_array(keys[2]), BELOW_3, ABOVE_3);
        let x = round(x, u8x16::from_array(keys[3]), BELOW_0, ABOVE_0);
        let x = round(x, u8x16::from_array(keys[4]), BELOW_1, ABOVE_1);
        let x = round(x, u8x16::from_array(keys[5]), BELOW_2, ABOVE_2);
        let x = round(x, u8x16::from_array(keys[6]), BELOW_3, ABOVE_3);
        let x = round(x, u8x16::from_array(keys[7]), BELOW_0, ABOVE_0);
        let x = round(x, u8x16::from_array(keys[8]), BELOW_1, ABOVE_1);
        last_round(x, u8x16::from_array(self.last)).to_array()
    }
}
