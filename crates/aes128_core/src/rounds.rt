//! The rounds of the cipher, on a state of four words (FIPS 197, section 5.1).
//!
//! ShiftRows moves no byte here: row `r` of its column `c` is that row of column `c + r`, modulo 4, so
//! each new column is made straight from the bytes of the four old ones.

ghost use Rattle.std.specs.Prelude.{◌≡◌, ◌<◌, map};
ghost use Rattle.aes128_core.specs.State.{state_from, bytes_of};
ghost use Rattle.aes128_core.specs.Rounds.{sub_bytes, shift_rows, mix_columns, add_round_key};
ghost use Rattle.aes128_core.specs.Columns.{word_bytes, state_of_words};

use crate::columns::{mixed_column, plain_column, word_at};

// Round 0: the block as a state, and the key added.
#[inline(always)]
pub(crate) fn first_round(words: &[u32; 44], block: &[u8; 16]) -> [u32; 4]
    ensures { state_of_words result
        ≡ add_round_key (map word_bytes words.now) 0 (state_from block.now) }
{
    [
        word_at(block, 0) ^ words[0],
        word_at(block, 4) ^ words[1],
        word_at(block, 8) ^ words[2],
        word_at(block, 12) ^ words[3],
    ]
}

// Rounds 1 to 9.
#[inline(always)]
pub(crate) fn round(words: &[u32; 44], n: usize, state: [u32; 4]) -> [u32; 4]
    requires { n < 10 }
    ensures { state_of_words result
        ≡ add_round_key (map word_bytes words.now) n
        (mix_columns (shift_rows (sub_bytes (state_of_words state)))) }
{
    let [a, b, c, d] = state;
    let [a0, a1, a2, a3] = a.to_le_bytes();
    let [b0, b1, b2, b3] = b.to_le_bytes();
    let [c0, c1, c2, c3] = c.to_le_bytes();
    let [d0, d1, d2, d3] = d.to_le_bytes();
    [
        mixed_column(a0, b1, c2, d3, words[4 * n]),
        mixed_column(b0, c1, d2, a3, words[4 * n + 1]),
        mixed_column(c0, d1, a2, b3, words[4 * n + 2]),
        mixed_column(d0, a1, b2, c3, words[4 * n + 3]),
    ]
}

// Round 10, which has no MixColumns.
#[inline(always)]
pub(crate) fn last_round(words: &[u32; 44], state: [u32; 4]) -> [u32; 4]
    ensures { state_of_words result
        ≡ add_round_key (map word_bytes words.now) 10
        (shift_rows (sub_bytes (state_of_words state))) }
{
    let [a, b, c, d] = state;
    let [a0, a1, a2, a3] = a.to_le_bytes();
    let [b0, b1, b2, b3] = b.to_le_bytes();
    let [c0, c1, c2, c3] = c.to_le_bytes();
    let [d0, d1, d2, d3] = d.to_le_bytes();
    [
        plain_column(a0, b1, c2, d3, words[40]),
        plain_column(b0, c1, d2, a3, words[41]),
        plain_column(c0, d1, a2, b3, words[42]),
        plain_column(d0, a1, b2, c3, words[43]),
    ]
}

// The state as a block, column after column.
#[inline(always)]
pub(crate) fn block_of(state: [u32; 4]) -> [u8; 16]
    ensures { result ≡ bytes_of (state_of_words state) }
{
    let [a, b, c, d] = state;
    let [a0, a1, a2, a3] = a.to_le_bytes();
    let [b0, b1, b2, b3] = b.to_le_bytes();
    let [c0, c1, c2, c3] = c.to_le_bytes();
    let [d0, d1, d2, d3] = d.to_le_bytes();
    [
        a0, a1, a2, a3, b0, b1, b2, b3, c0, c1, c2, c3, d0, d1, d2, d3,
    ]
}
