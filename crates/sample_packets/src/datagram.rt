//! A datagram, and how another is made of it.

ghost use Rattle.std.specs.Prelude.{◌+◌, ◌≤◌, length};
ghost use Rattle.field_rows.specs.Place.{Puts};

use field_rows::put;

/// A datagram from 1-ff00:0:111, 10.1.0.5 to 1-ff00:0:112, 10.2.0.7 over one segment of three hops, at the
/// second one, with 8 bytes of UDP. The second hop field's MAC is the one of `KEY`, made by OpenSSL.
pub const FIRST: [u8; 92] = *b"\x00\x00\x00\x01\x11\x15\x00\x08\x01\x00\x00\x00\
    \x00\x01\xff\x00\x00\x00\x01\x12\x00\x01\xff\x00\x00\x00\x01\x11\x0a\x02\x00\x07\x0a\x01\x00\x05\
    \x01\x00\x30\x00\x01\x00\x12\x34\x65\x00\x00\x00\
    \x00\x3f\x00\x00\x00\x11\xa0\xa1\xa2\xa3\xa4\xa5\
    \x00\x3f\x00\x01\x00\x02\x0e\x66\xd2\x97\x45\x36\
    \x00\x3f\x00\x12\x00\x00\xb0\xb1\xb2\xb3\xb4\xb5\
    \x75\x59\x75\x59\x00\x08\x00\x00";

/// The answer of the router of 1-ff00:0:110 to it, where it is quoted whole: the header, the path back, and
/// eight bytes in place of the message before its quote.
pub const ANSWER: [u8; 92] = *b"\x00\x00\x00\x01\xca\x15\x00\x64\x01\x00\x00\x00\
    \x00\x01\xff\x00\x00\x00\x01\x11\x00\x01\xff\x00\x00\x00\x01\x10\x0a\x01\x00\x05\x0a\x00\x00\x01\
    \x02\x00\x30\x00\x00\x00\x12\x34\x65\x00\x00\x00\
    \x00\x3f\x00\x12\x00\x00\xb0\xb1\xb2\xb3\xb4\xb5\
    \x00\x3f\x00\x01\x00\x02\x0e\x66\xd2\x97\x45\x36\
    \x00\x3f\x00\x00\x00\x11\xa0\xa1\xa2\xa3\xa4\xa5\
    \x00\x00\x00\x00\x00\x00\x00\x00";

/// Where its path begins: the meta header, then one info field, then three hop fields.
pub const PATH_AT: usize = 36;

/// Where the MAC of its second hop field is.
pub const MAC_AT: usize = 66;

/// Where its payload begins.
pub const PAYLOAD_AT: usize = 84;

/// A MAC that no key made.
pub const OTHER_MAC: [u8; 6] = [0xc0, 0xc1, 0xc2, 0xc3, 0xc4, 0xc5];

/// A second at which its second hop field is within its time.
pub const IN_TIME: u64 = 1694499816;

/// The first second at which its second hop field has expired.
pub const LATE: u64 = 1694520417;

/// A datagram with these bytes in place of those from an offset on.
pub fn with_bytes(datagram: [u8; 92], at: usize, bytes: &[u8]) -> [u8; 92]
    requires { at + length bytes.now ≤ 92 }
    ensures { Puts datagram result at bytes.now }
{
    let mut changed = datagram;
    put(&mut changed, at, bytes);
    changed
}
