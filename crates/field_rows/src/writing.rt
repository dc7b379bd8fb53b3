//! Numbers and texts written at a place of a slice, big-endian; nothing else of the slice changes.

ghost use Rattle.std.specs.Prelude.{◌+◌, ◌<◌, ◌≤◌, ◌^◌, length};
ghost use Rattle.byteorder.specs.Endian.{big_bytes};
ghost use Rattle.field_rows.specs.Place.{Puts};

use byteorder::{BigEndian, ByteOrder};

/// Writes one byte at `at`.
pub fn put_u8(out: &mut [u8], at: usize, byte: u8)
    requires { at + 1 ≤ length out.old }
    ensures { Puts out.old out.new at (big_bytes 1 byte) }
{
    out[at] = byte;
}

/// Writes a number into the two bytes from `at` on.
pub fn put_u16(out: &mut [u8], at: usize, number: u16)
    requires { at + 2 ≤ length out.old }
    ensures { Puts out.old out.new at (big_bytes 2 number) }
{
    BigEndian::write_u16(&mut out[at..at + 2], number);
}

/// Writes a number into the four bytes from `at` on.
pub fn put_u32(out: &mut [u8], at: usize, number: u32)
    requires { at + 4 ≤ length out.old }
    ensures { Puts out.old out.new at (big_bytes 4 number) }
{
    BigEndian::write_u32(&mut out[at..at + 4], number);
}

/// Writes a number below 2^48 into the six bytes from `at` on.
pub fn put_u48(out: &mut [u8], at: usize, number: u64)
    requires room { at + 6 ≤ length out.old }
    requires fits { number < 2 ^ 48 }
    ensures { Puts out.old out.new at (big_bytes 6 number) }
{
    BigEndian::write_u48(&mut out[at..at + 6], number);
}

/// Writes a text from `at` on.
pub fn put(out: &mut [u8], at: usize, text: &[u8])
    requires { at + length text.now ≤ length out.old }
    ensures { Puts out.old out.new at text.now }
{
    out[at..at + text.len()].copy_from_slice(text);
}
