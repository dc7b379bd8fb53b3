//! AES-128 (FIPS 197): encryption of single blocks of 16 bytes.
//!
//! There are two types for a key, and both encrypt alike. Each expands a key once, by its `new`, and its
//! `encrypt` then encrypts any number of blocks under it. Nothing here allocates and nothing can fail.
//! There is no decryption and no mode of operation.
//!
//! - [`VectorAes128`] looks bytes up by shuffles of registers. It is written so that no address and no
//!   branch depends on a byte of the key or of a block. That the compiler keeps it so is tried on the
//!   built program, and no contract says it.
//! - [`Aes128`] looks columns up in tables in memory, by bytes that depend on the key. Where others
//!   share the machine's cache, the time of a call may tell something of the key.

#![tactic(auto)]

ghost use Rattle.std.specs.Prelude.{◌≡◌, ℕ, List, map};
ghost use Rattle.std.specs.Str.{bytes_eq};
ghost use Rattle.aes128_core.specs.Columns.{word_bytes, key_of};
ghost use Rattle.aes128_core.specs.KeyExpansion.{key_expansion};
ghost use Rattle.aes128_core.specs.Aes128.{cipher};

mod columns;
mod key_expansion;
mod lane_rounds;
mod lane_tables;
mod lanes;
mod round_keys;
mod rounds;
mod tables;
mod vector;

use crate::key_expansion::expand;
use crate::rounds::{block_of, first_round, last_round, round};
use std::marker::Model;
pub use vector::VectorAes128;

/// An AES-128 key, expanded and ready to encrypt blocks by tables in memory.
///
/// It takes 176 bytes, and contracts see it as its key, a list of 16 bytes.
#[derive(Drop)]
pub struct Aes128 {
    // All 44 words of the key schedule. The first four are the key itself.
    words: [u32; 44],
}

impl Model for Aes128 {
    ghost Value = { List ℕ };

    ghost view = { λ a. key_of a.words };

    ghost invariant = { λ a. map word_bytes a.words ≡ key_expansion (key_of a.words) };
}

impl Aes128 {
    /// Expands a key of 16 bytes, the first byte first (FIPS 197, section 5.2).
    ///
    /// The key schedule is computed here alone, so keep the value as long as the key is used.
    pub fn new(key: &[u8; 16]) -> Aes128
        ensures { result ≡ key.now }
    {
        Aes128 { words: expand(key) }
    }

    /// Whether both are the same key.
    pub fn has_same_key(&self, other: &Aes128) -> bool
        ensures { result ≡ bytes_eq self.now other.now }
    {
        self.words[0] == other.words[0]
            && self.words[1] == other.words[1]
            && self.words[2] == other.words[2]
            && self.words[3] == other.words[3]
    }

    /// Encrypts one block of 16 bytes: the standard's `Cipher` of 10 rounds (FIPS 197, section 5.1).
    pub fn encrypt(&self, block: &[u8; 16]) -> [u8; 16]
        ensures { result ≡ cipher self.now block.now }
    {
        let words = &self.words;
        let state = first_round(words, block);
        let state = round(words, 1, state);
        let state = round(words, 2, state);
        let state = round(words, 3, state);
        let state = round(words, 4, state);
        let state = round(words, 5, state);
        let state = round(words, 6, state);
        let state = round(words, 7, state);
        let state = round(words, 8, state);
        let state = round(words, 9, state);
        block_of(last_round(words, state))
    }
}
