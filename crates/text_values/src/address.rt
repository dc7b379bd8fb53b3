//! Addresses of the underlay as text, as in `10.0.0.1:30000` or `[fd00:0:0:0:0:0:0:77]:30041`.
ghost use Rattle.std.specs.Prelude.{◌≡◌, ◌≤◌, ◌/◌, ◌%◌, IfSome, IsTrue, option_map};
ghost use Rattle.process_packet.specs.Neighbours.{has_port};
ghost use Rattle.text_values.specs.Pieces.{number_up_to};
ghost use Rattle.text_values.specs.Address.{group_and_rest, groups_of, octets_of, port_of, underlay_4_of, underlay_6_of, underlay_of};

use crate::pieces::{read_group, read_number, split_once, strip_prefix};
use process_packet::{Ip, Underlay};

/// A decimal up to 255.
fn read_octet(text: &str) -> Option<u8>
    ensures { result ≡ number_up_to 255 text.now }
{
    match read_number(text, 255) {
        Some(octet) => Some(octet as u8),
        None => None,
    }
}

/// The bytes of four decimals joined by `.`.
#[tactic(auto, unfolding(crate::specs::Address::octets_of))]
fn read_octets(text: &str) -> Option<[u8; 4]>
    ensures { result ≡ octets_of text.now }
{
    let (first, rest) = split_once(text, '.')?;
    let (second, rest) = split_once(rest, '.')?;
    let (third, fourth) = split_once(rest, '.')?;
    let first = read_octet(first)?;
    let second = read_octet(second)?;
    let third = read_octet(third)?;
    let fourth = read_octet(fourth)?;
    Some([first, second, third, fourth])
}

/// The group of hex digits that ends at a `:`, and what follows.
#[tactic(auto, unfolding(crate::specs::Address::group_and_rest))]
fn read_group_and_rest(text: &str) -> Option<(u16, &str)>
    ensures { option_map (λ parts. (parts.0, parts.1.now)) result ≡ group_and_rest text.now }
{
    let (group, rest) = split_once(text, ':')?;
    let group = read_group(group)?;
    Some((group, rest))
}

/// The bytes of eight groups of hex digits joined by `:`.
#[tactic(auto, unfolding(crate::specs::Address::groups_of))]
fn read_groups(text: &str) -> Option<[u8; 16]>
    ensures { result ≡ groups_of text.now }
{
    let (a, rest) = read_group_and_rest(text)?;
    let (b, rest) = read_group_and_rest(rest)?;
    let (c, rest) = read_group_and_rest(rest)?;
    let (d, rest) = read_group_and_rest(rest)?;
    let (e, rest) = read_group_and_rest(rest)?;
    let (f, rest) = read_group_and_rest(rest)?;
    let (g, last) = read_group_and_rest(rest)?;
    let h = read_group(last)?;
    Some([
        high(a),
        low(a),
        high(b),
        low(b),
        high(c),
        low(c),
        high(d),
        low(d),
        high(e),
        low(e),
        high(f),
        low(f),
        high(g),
        low(g),
        high(h),
        low(h),
    ])
}

/// The first byte of a group.
fn high(group: u16) -> u8
    ensures { result ≡ group / 256 }
{
    (group / 256) as u8
}

/// The second byte of a group.
fn low(group: u16) -> u8
    ensures { result ≡ group % 256 }
{
    (group % 256) as u8
}

/// A port, 1 to 65535.
fn read_port(text: &str) -> Option<u16>
    ensures value { result ≡ port_of text.now }
    ensures is_there { IfSome result (λ port. 1 ≤ port) }
{
    let port = read_number(text, u16::MAX.into())? as u16;
    if port == 0 { None } else { Some(port) }
}

#[tactic(auto, unfolding(crate::specs::Address::underlay_4_of))]
fn read_underlay_4(text: &str) -> Option<Underlay>
    ensures value { result ≡ underlay_4_of text.now }
    ensures port { IfSome result (λ underlay. IsTrue (has_port underlay)) }
{
    let (ip, port) = split_once(text, ':')?;
    let ip = Ip::V4(read_octets(ip)?);
    let port = read_port(port)?;
    Some(Underlay { ip, port })
}

#[tactic(auto, unfolding(crate::specs::Address::underlay_6_of))]
fn read_underlay_6(text: &str) -> Option<Underlay>
    ensures value { result ≡ underlay_6_of text.now }
    ensures port { IfSome result (λ underlay. IsTrue (has_port underlay)) }
{
    let opened = strip_prefix(text, '[')?;
    let (ip, closed) = split_once(opened, ']')?;
    let ip = Ip::V6(read_groups(ip)?);
    let port = read_port(strip_prefix(closed, ':')?)?;
    Some(Underlay { ip, port })
}

/// The address and port that a text is, if it is one: `1.2.3.4:5` or `[a:b:c:d:e:f:0:1]:5`.
///
/// An IPv4 address is four decimals up to 255 without leading zeros. An IPv6 address is eight
/// groups of one to four hex digits of either case; `::` is no short form here. The port is a decimal
/// from 1 to 65535 without leading zeros.
pub fn read_underlay(text: &str) -> Option<Underlay>
    ensures value { result ≡ underlay_of text.now }
    ensures port { IfSome result (λ underlay. IsTrue (has_port underlay)) }
{
    match read_underlay_4(text) {
        Some(underlay) => Some(underlay),
        None => read_underlay_6(text),
    }
}
