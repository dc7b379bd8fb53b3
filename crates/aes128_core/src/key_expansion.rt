//! The key schedule: 44 words of a key of 16 bytes (FIPS 197, section 5.2).

ghost use Rattle.std.specs.Prelude.{◌≡◌, ◌<◌, map};
ghost use Rattle.aes128_core.specs.KeyExpansion.{word_change, key_expansion};
ghost use Rattle.aes128_core.specs.Columns.{word_bytes};

use crate::columns::{word_at, word_of};
use crate::lanes::substituted_word;
use crate::tables::ROUND_CONSTANTS;

// What is added to word `i - 4` to give word `i`, from the word before it. At each fourth word that
// is the word before, turned (RotWord) and taken through the S-box (SubWord), plus a round constant,
// which is in the first row.
#[tactic(auto, using(crate::proofs::TableRules::x_power_at), unfolding(crate::specs::KeyExpansion::word_change))]
fn word_change(i: usize, before: u32) -> u32
    requires { (0 < i) × (i < 44) }
    ensures { word_bytes result ≡ word_change i (word_bytes before) }
{
    if i % 4 == 0 {
        let [a, b, c, d] = before.to_le_bytes();
        substituted_word(b, c, d, a, word_of(ROUND_CONSTANTS[i / 4 - 1], 0, 0, 0))
    } else {
        before
    }
}

// All 44 words: the key's four, then each from those before it.
pub(crate) fn expand(key: &[u8; 16]) -> [u32; 44]
    ensures { map word_bytes result ≡ key_expansion key.now }
{
    let mut words = [0; 44];
    words[0] = word_at(key, 0);
    words[1] = word_at(key, 4);
    words[2] = word_at(key, 8);
    words[3] = word_at(key, 12);
    for n in 0..40 {
        words[n + 4] = words[n] ^ word_change(n + 4, words[n + 3]);
    }
    words
}
