//! HMAC (RFC 2104) with SHA-256.
ghost use Rattle.std.specs.Prelude.{◌≡◌, ◌≤◌, ◌++◌, length};
ghost use Rattle.key_derivation.specs.Hmac.{block_key, hmac, masked, padded};

use sha2::{Digest, Sha256};

/// The bytes of a block of SHA-256.
const BLOCK: usize = 64;

/// At most a block of bytes, with zeros at their end up to a block's length.
fn padded(part: &[u8]) -> [u8; 64]
    requires { length part.now ≤ 64 }
    ensures { result ≡ padded part.now }
{
    let mut block = [0; BLOCK];
    block[..part.len()].copy_from_slice(part);
    block
}

/// The key as a block; a longer one is hashed first.
#[tactic(auto, unfolding(crate::specs::Hmac::block_key))]
fn block_key(key: &[u8]) -> [u8; 64]
    ensures { result ≡ block_key key.now }
{
    if key.len() <= BLOCK {
        padded(key)
    } else {
        let digest: [u8; 32] = Sha256::digest(key);
        padded(&digest)
    }
}

/// The key of a block with the mask added to each of its bytes.
#[tactic(auto, unfolding(crate::specs::Hmac::masked))]
fn masked(mask: u8, key: &[u8; 64]) -> [u8; 64]
    ensures { result ≡ masked mask key.now }
{
    let mut sum = *key;
    for byte in sum.iter_mut() {
        *byte ^= mask;
    }
    sum
}

/// The code of two pieces, taken as one text.
#[tactic(auto, unfolding(crate::specs::Hmac::hmac))]
pub(crate) fn hmac_of_parts(key: &[u8], first: &[u8], second: &[u8]) -> [u8; 32]
    ensures { result ≡ hmac key.now (first.now ++ second.now) }
{
    let key = block_key(key);
    let mut inner = Sha256::new();
    inner.update(masked(0x36, &key));
    inner.update(first);
    inner.update(second);
    let digest: [u8; 32] = inner.finalize();
    let mut outer = Sha256::new();
    outer.update(masked(0x5c, &key));
    outer.update(digest);
    outer.finalize()
}

/// The message authentication code of a text, 32 bytes, under a key of any length (RFC 2104, section 2).
pub fn hmac_sha256(key: &[u8], text: &[u8]) -> [u8; 32]
    ensures { result ≡ hmac key.now text.now }
{
    hmac_of_parts(key, text, &[])
}
