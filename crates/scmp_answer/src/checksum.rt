//! The checksum of an SCMP message: that of the Internet protocols (RFC 1071).

ghost use Rattle.std.specs.Prelude.{◌≡◌, ℕ, ◌+◌, ◌*◌, ◌%◌, ◌^◌, ◌<◌, ◌≤◌, ◌++◌, length, sum};
ghost use Rattle.field_rows.specs.Row.{rows};
ghost use Rattle.scmp_answer.specs.Checksum.{Carried, checksum, pseudo_table, words};

use field_rows::u16_at;

/// The sum of the 16-bit words of at most 1,232 bytes; a zero byte fills an odd end.
fn word_sum(bytes: &[u8]) -> u32
    requires { length bytes.now ≤ 1232 }
    ensures sum { result ≡ sum (words bytes.now) }
    ensures small { result < 2 ^ 27 }
{
    let mut sum = 0;
    for k in 0..bytes.len() / 2 {
        sum += u32::from(u16_at(bytes, 2 * k));
    }
    if bytes.len() % 2 == 1 {
        sum += u32::from(bytes[bytes.len() - 1]) * 256;
    }
    sum
}

/// A sum of words with its carries added at the low end, until none is left.
fn carried(sum: u32) -> u16
    requires { sum < 2 ^ 30 }
    ensures { (folded : ℕ) → Carried folded sum → result ≡ folded }
{
    let once = sum % 0x1_0000 + sum / 0x1_0000;
    (once % 0x1_0000 + once / 0x1_0000) as u16
}

/// The checksum of an SCMP message whose own checksum is 0, by the bytes of its packet's address header.
pub(crate) fn checksum(addresses: &[u8], message: &[u8]) -> u16
    requires even { length addresses.now % 2 ≡ 0 }
    requires few { length addresses.now ≤ 1232 }
    requires short { length message.now ≤ 1232 }
    ensures { result ≡ checksum (addresses.now ++ (rows (pseudo_table (length message.now)) ++ message.now)) }
{
    let pseudo = message.len() as u32 + 202;
    0xffff - carried(word_sum(addresses) + pseudo + word_sum(message))
}
