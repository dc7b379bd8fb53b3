//! A column of the state, held in one word.
//!
//! Row `r` of a column is byte `r` of its word, the lowest byte first. So a word is read from a
//! block, and written back, as little-endian bytes, and to add two columns is one `^`.

ghost use Rattle.std.specs.Prelude.{◌≡◌, ◌+◌, ◌≤◌, [], ◌∷◌};
ghost use Rattle.aes128_core.specs.SBox.{s_box};
ghost use Rattle.aes128_core.specs.State.{xor_words};
ghost use Rattle.aes128_core.specs.Rounds.{mix_column};
ghost use Rattle.aes128_core.specs.Columns.{word_bytes, word_from};

use crate::tables::{S_BOX, T0, T1, T2, T3};

// The word whose rows are these four bytes.
#[inline(always)]
pub(crate) fn word_of(a: u8, b: u8, c: u8, d: u8) -> u32
    ensures { word_bytes result ≡ a ∷ b ∷ c ∷ d ∷ [] }
{
    u32::from_le_bytes([a, b, c, d])
}

// The word of the four bytes from place `i` on.
#[inline(always)]
pub(crate) fn word_at(bytes: &[u8; 16], i: usize) -> u32
    requires { i + 4 ≤ 16 }
    ensures { word_bytes result ≡ word_from bytes.now i }
{
    word_of(bytes[i], bytes[i + 1], bytes[i + 2], bytes[i + 3])
}

fn sub_byte(b: u8) -> u8
    ensures { result ≡ s_box b }
{
    S_BOX[b as usize]
}

// The column that a round makes of four bytes, one in each row, and a word of the key: the S-box on
// each byte, the matrix, and the word added.
//
// The matrix times a column is the sum of the matrix's columns, each times one of the four bytes.
// Table k has column k of the matrix times the S-box's value of each byte, so that sum is four
// look-ups. The tables have the same bytes, turned: to keep all four saves a rotation at each look-up
// but the first.
#[inline(always)]
pub(crate) fn mixed_column(a: u8, b: u8, c: u8, d: u8, key: u32) -> u32
    ensures { word_bytes result
        ≡ xor_words (mix_column (s_box a ∷ s_box b ∷ s_box c ∷ s_box d ∷ [])) (word_bytes key) }
{
    T0[a as usize] ^ T1[b as usize] ^ T2[c as usize] ^ T3[d as usize] ^ key
}

// The S-box on each of four bytes, with no matrix, and a word added. The last round is made of it.
#[inline(always)]
pub(crate) fn plain_column(a: u8, b: u8, c: u8, d: u8, added: u32) -> u32
    ensures { word_bytes result
        ≡ xor_words (s_box a ∷ s_box b ∷ s_box c ∷ s_box d ∷ []) (word_bytes added) }
{
    word_of(sub_byte(a), sub_byte(b), sub_byte(c), sub_byte(d)) ^ added
}
