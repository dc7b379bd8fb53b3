//! Numbers and texts read at a place of a slice, big-endian.

ghost use Rattle.std.specs.Prelude.{◌≡◌, ◌+◌, ◌<◌, ◌≤◌, ◌^◌, length};
ghost use Rattle.field_rows.specs.Place.{number_at, text_at};

use byteorder::{BigEndian, ByteOrder};

/// The number in the two bytes from `at` on.
pub fn u16_at(bytes: &[u8], at: usize) -> u16
    requires { at + 2 ≤ length bytes.now }
    ensures { result ≡ number_at bytes.now at 2 }
{
    BigEndian::read_u16(&bytes[at..])
}

/// The number in the four bytes from `at` on.
pub fn u32_at(bytes: &[u8], at: usize) -> u32
    requires { at + 4 ≤ length bytes.now }
    ensures { result ≡ number_at bytes.now at 4 }
{
    BigEndian::read_u32(&bytes[at..])
}

/// The number in the six bytes from `at` on.
pub fn u48_at(bytes: &[u8], at: usize) -> u64
    requires { at + 6 ≤ length bytes.now }
    ensures value { result ≡ number_at bytes.now at 6 }
    ensures fits { result < 2 ^ 48 }
{
    BigEndian::read_u48(&bytes[at..])
}

/// The `N` bytes from `at` on.
pub fn array_at<const N: usize>(bytes: &[u8], at: usize) -> [u8; N]
    requires { at + N ≤ length bytes.now }
    ensures text { result ≡ text_at bytes.now at N }
    ensures len { length result ≡ N }
{
    let mut array = [0; N];
    array.copy_from_slice(&bytes[at..at + N]);
    array
}
