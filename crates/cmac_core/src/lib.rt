//! AES-CMAC (RFC 4493): tags of 16 bytes for messages of any length.
//!
//! [`Cmac::new`] takes a key once; [`Cmac::tag`] then gives the tag of a message, and
//! [`Cmac::tag6_block`] the first six bytes of the tag of a message of one block, which is what a
//! hop field carries. Nothing here allocates and nothing can fail. To verify a tag, compute it and
//! compare.
//!
//! The cipher looks bytes up by shuffles of registers, and what is added to its blocks takes no branch
//! on them: only a message's length decides what is done. That the compiler keeps it so is tried on
//! the built program, and no contract says it.

#![tactic(auto)]

ghost use Rattle.std.specs.Prelude.{◌≡◌, ℕ, List, take};
ghost use Rattle.std.specs.Str.{bytes_eq};
ghost use Rattle.cmac_core.specs.Cmac.{subkey_1, subkey_2, tag};

mod block;

use crate::block::{Block, doubled, filled, xor_blocks};
use aes128_core::VectorAes128;
use std::marker::Model;

/// A key for AES-CMAC, with what is computed from it once.
///
/// It takes 208 bytes, and contracts see it as its key, a list of 16 bytes.
#[derive(Drop)]
pub struct Cmac {
    cipher: VectorAes128,
    // The standard's K1, which is added to a last block that is whole.
    whole_mask: Block,
    // The standard's K2, which is added to a last block that was filled up.
    filled_mask: Block,
}

impl Model for Cmac {
    ghost Value = { List ℕ };

    ghost view = { λ c. c.cipher };

    ghost invariant = { λ c.
        (c.whole_mask ≡ subkey_1 c.cipher) × (c.filled_mask ≡ subkey_2 c.cipher) };
}

impl Cmac {
    /// Makes ready a key of 16 bytes: expands it and computes both subkeys (RFC 4493, section 2.3).
    ///
    /// This costs more than a short tag, so keep the value as long as the key is used.
    pub fn new(key: &[u8; 16]) -> Cmac
        ensures { result ≡ key.now }
    {
        let cipher = VectorAes128::new(key);
        let whole_mask = doubled(cipher.encrypt(&[0; 16]));
        Cmac {
            cipher,
            whole_mask,
            filled_mask: doubled(whole_mask),
        }
    }

    /// Whether both are the same key.
    pub fn has_same_key(&self, other: &Cmac) -> bool
        ensures { result ≡ bytes_eq self.now other.now }
    {
        self.cipher.has_same_key(&other.cipher)
    }

    /// The tag, 16 bytes, of a message of any length, 0 included (RFC 4493, section 2.4).
    pub fn tag(&self, message: &[u8]) -> [u8; 16]
        ensures { result ≡ tag self.now message.now }
    {
        let mut chained = [0; 16];
        let mut rest = message;
        while rest.len() > 16 {
            let (block, after) = rest.split_at(16);
            chained = self.cipher.encrypt(&xor_blocks(&chained, block));
            rest = after;
        }
        let last = if rest.len() == 16 {
            xor_blocks(rest, &self.whole_mask)
        } else {
            xor_blocks(&filled(rest), &self.filled_mask)
        };
        self.cipher.encrypt(&xor_blocks(&chained, &last))
    }

    /// The first six bytes of the tag of a message of one block, 16 bytes.
    ///
    /// Gives what `tag` gives, in one encryption: a block that is both first and last is added to
    /// nothing but the first subkey.
    pub fn tag6_block(&self, block: &[u8; 16]) -> [u8; 6]
        ensures { result ≡ take 6 (tag self.now block.now) }
    {
        let tag = self.cipher.encrypt(&xor_blocks(block, &self.whole_mask));
        let mut front = [0; 6];
        front.copy_from_slice(&tag[..6]);
        front
    }
}
