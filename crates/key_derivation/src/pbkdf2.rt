//! PBKDF2 (RFC 8018) with HMAC-SHA256.
ghost use Rattle.std.specs.Prelude.{◌≡◌, ◌<◌};
ghost use Rattle.key_derivation.specs.Pbkdf2.{block, forwarding_key, xor_digests};

use crate::hmac::{hmac_of_parts, hmac_sha256};

/// The salt of forwarding keys.
const SALT: &[u8] = b"Derive OF Key";

/// How often the code is taken for a forwarding key.
const ITERATIONS: u32 = 1000;

/// The sum of two digests.
#[tactic(auto, unfolding(crate::specs::Pbkdf2::xor_digests))]
fn xor_digests(a: &[u8; 32], b: &[u8; 32]) -> [u8; 32]
    ensures { result ≡ xor_digests a.now b.now }
{
    let mut sum = [0; 32];
    for i in 0..32 {
        sum[i] = a[i] ^ b[i];
    }
    sum
}

/// The block with this index, from 1 on, of the key that PBKDF2 derives (RFC 8018, section 5.2): each block has 32
/// bytes of it.
pub fn derived_block(password: &[u8], salt: &[u8], iterations: u32, index: u32) -> [u8; 32]
    requires { 0 < iterations }
    ensures { result ≡ block password.now salt.now iterations index }
{
    let mut link = hmac_of_parts(password, salt, &index.to_be_bytes());
    let mut block = link;
    for _turn in 0..iterations - 1 {
        link = hmac_sha256(password, &link);
        block = xor_digests(&block, &link);
    }
    block
}

/// The forwarding key of an AS, 16 bytes, from its master key: PBKDF2 with the salt `Derive OF Key` and 1,000
/// iterations, as scionproto derives it.
pub fn forwarding_key(master: &[u8]) -> [u8; 16]
    ensures { result ≡ forwarding_key master.now }
{
    let block = derived_block(master, SALT, ITERATIONS, 1);
    let mut key = [0; 16];
    key.copy_from_slice(&block[..16]);
    key
}
