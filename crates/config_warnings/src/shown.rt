//! Addresses in words, as they are written in a configuration.

ghost use Rattle.std.specs.Prelude.{◌≡◌, ◌+◌, ◌*◌, ◌<◌, Some, slice_index};
ghost use Rattle.std.specs.Fmt.{DisplaysOnOk};
ghost use Rattle.text_values.specs.Shown.{first_groups, groups_text, last_groups, octets_text, text_of, ip_text};

use process_packet::{Ip, Underlay};
use std::fmt;

/// An address as it is printed: `1.2.3.4:5` or `[a:b:c:d:e:f:0:1]:5`.
#[derive(Clone, Copy)]
pub struct Shown<'a>(pub &'a Underlay);

/// The group of two bytes at a place.
fn group(bytes: &[u8; 16], at: usize) -> u16
    requires { at < 8 }
    ensures { result ≡ slice_index bytes.now (2 * at) * 256 + slice_index bytes.now (2 * at + 1) }
{
    u16::from(bytes[2 * at]) * 256 + u16::from(bytes[2 * at + 1])
}

/// Writes the first four groups in hex, joined by `:`.
#[tactic(auto, unfolding(text_values::specs::Shown::first_groups))]
fn write_first<W: fmt::Write>(f: &mut fmt::Formatter<W>, bytes: &[u8; 16]) -> fmt::Result
    ensures { DisplaysOnOk W.write_str_gives f.old result (Some (first_groups bytes.now)) f.new }
{
    let (a, b) = (group(bytes, 0), group(bytes, 1));
    let (c, d) = (group(bytes, 2), group(bytes, 3));
    write!(f, "{a:x}:{b:x}:{c:x}:{d:x}")
}

/// Writes the last four groups, each after a `:`.
#[tactic(auto, unfolding(text_values::specs::Shown::last_groups))]
fn write_last<W: fmt::Write>(f: &mut fmt::Formatter<W>, bytes: &[u8; 16]) -> fmt::Result
    ensures { DisplaysOnOk W.write_str_gives f.old result (Some (last_groups bytes.now)) f.new }
{
    let (a, b) = (group(bytes, 4), group(bytes, 5));
    let (c, d) = (group(bytes, 6), group(bytes, 7));
    write!(f, ":{a:x}:{b:x}:{c:x}:{d:x}")
}

/// Writes eight groups of hex digits, joined by `:`.
#[tactic(auto, unfolding(text_values::specs::Shown::groups_text))]
fn write_groups<W: fmt::Write>(f: &mut fmt::Formatter<W>, bytes: &[u8; 16]) -> fmt::Result
    ensures { DisplaysOnOk W.write_str_gives f.old result (Some (groups_text bytes.now)) f.new }
{
    write_first(f, bytes)?;
    write_last(f, bytes)
}

/// Writes four decimals, joined by `.`.
#[tactic(auto, unfolding(text_values::specs::Shown::octets_text))]
fn write_octets<W: fmt::Write>(f: &mut fmt::Formatter<W>, octets: &[u8; 4]) -> fmt::Result
    ensures { DisplaysOnOk W.write_str_gives f.old result (Some (octets_text octets.now)) f.new }
{
    let [a, b, c, d] = *octets;
    write!(f, "{a}.{b}.{c}.{d}")
}

/// Writes an IP address.
fn write_ip<W: fmt::Write>(f: &mut fmt::Formatter<W>, ip: &Ip) -> fmt::Result
    ensures { DisplaysOnOk W.write_str_gives f.old result (Some (ip_text ip.now)) f.new }
{
    match ip {
        Ip::V4(octets) => write_octets(f, octets),
        Ip::V6(bytes) => {
            f.write_str("[")?;
            write_groups(f, bytes)?;
            f.write_str("]")
        }
    }
}

impl fmt::Display for Shown<'_> {
    ghost output = { λ s. Some (text_of s.0.now) };

    fn fmt<W: fmt::Write>(&self, f: &mut fmt::Formatter<W>) -> fmt::Result {
        write_ip(f, &self.0.ip)?;
        let port = self.0.port;
        write!(f, ":{port}")
    }
}
