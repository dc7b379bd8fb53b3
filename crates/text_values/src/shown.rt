//! Addresses as they are printed: lower case, no leading zeros.
ghost use Rattle.std.specs.Prelude.{◌≡◌, ◌++◌, ◌<◌, ◌∷◌, [], OnOk, decimal, false};
ghost use Rattle.std.specs.Fmt.{digit_glyph, digits};
ghost use Rattle.text_values.specs.Shown.{first_groups, group, groups_text, last_groups, octets_text, text_of, with_colon};

use crate::decimal::push_decimal;
use process_packet::{Ip, Underlay};
use std::alloc::AllocError;

/// The digit of a number below 16.
fn hex_digit(number: u16) -> u8
    requires { number < 16 }
    ensures { result ≡ digit_glyph false number }
{
    let digit = number as u8;
    if digit < 10 {
        b'0' + digit
    } else {
        b'a' - 10 + digit
    }
}

/// Adds the hex digits of a group, without leading zeros.
fn push_group(text: &mut Vec<u8>, group: u16) -> Result<(), AllocError>
    ensures { OnOk result (text.new.items ≡ text.old.items ++ digits 16 false group) }
{
    let first = hex_digit(group / 4096 % 16);
    let second = hex_digit(group / 256 % 16);
    let third = hex_digit(group / 16 % 16);
    let last = hex_digit(group % 16);
    if group < 16 {
        text.extend_from_slice(&[last])
    } else if group < 256 {
        text.extend_from_slice(&[third, last])
    } else if group < 4096 {
        text.extend_from_slice(&[second, third, last])
    } else {
        text.extend_from_slice(&[first, second, third, last])
    }
}

/// Adds a `.` and an octet in decimals.
fn push_dotted(text: &mut Vec<u8>, octet: u8) -> Result<(), AllocError>
    ensures { OnOk result (text.new.items ≡ text.old.items ++ (46 ∷ decimal octet)) }
{
    text.push(b'.')?;
    push_decimal(text, octet)
}

/// Adds the decimals of the octets, joined by `.`.
#[tactic(auto, unfolding(crate::specs::Shown::octets_text))]
fn push_octets(text: &mut Vec<u8>, octets: &[u8; 4]) -> Result<(), AllocError>
    ensures { OnOk result (text.new.items ≡ text.old.items ++ octets_text octets.now) }
{
    push_decimal(text, octets[0])?;
    push_dotted(text, octets[1])?;
    push_dotted(text, octets[2])?;
    push_dotted(text, octets[3])
}

/// Adds the group of two bytes at a place, in hex.
fn push_group_at(text: &mut Vec<u8>, bytes: &[u8; 16], at: usize) -> Result<(), AllocError>
    requires { at < 8 }
    ensures { OnOk result (text.new.items ≡ text.old.items ++ group bytes.now at) }
{
    let group = u16::from(bytes[2 * at]) * 256 + u16::from(bytes[2 * at + 1]);
    push_group(text, group)
}

/// Adds a `:` and the group at a place.
fn push_with_colon(text: &mut Vec<u8>, bytes: &[u8; 16], at: usize) -> Result<(), AllocError>
    requires { at < 8 }
    ensures { OnOk result (text.new.items ≡ text.old.items ++ with_colon bytes.now at) }
{
    text.push(b':')?;
    push_group_at(text, bytes, at)
}

/// Adds the first four groups in hex, joined by `:`.
#[tactic(auto, unfolding(crate::specs::Shown::first_groups))]
fn push_first(text: &mut Vec<u8>, bytes: &[u8; 16]) -> Result<(), AllocError>
    ensures { OnOk result (text.new.items ≡ text.old.items ++ first_groups bytes.now) }
{
    push_group_at(text, bytes, 0)?;
    push_with_colon(text, bytes, 1)?;
    push_with_colon(text, bytes, 2)?;
    push_with_colon(text, bytes, 3)
}

/// Adds the last four groups, each after a `:`.
#[tactic(auto, unfolding(crate::specs::Shown::last_groups))]
fn push_last(text: &mut Vec<u8>, bytes: &[u8; 16]) -> Result<(), AllocError>
    ensures { OnOk result (text.new.items ≡ text.old.items ++ last_groups bytes.now) }
{
    push_with_colon(text, bytes, 4)?;
    push_with_colon(text, bytes, 5)?;
    push_with_colon(text, bytes, 6)?;
    push_with_colon(text, bytes, 7)
}

/// Adds the eight groups in hex, joined by `:`.
#[tactic(auto, unfolding(crate::specs::Shown::groups_text))]
fn push_groups(text: &mut Vec<u8>, bytes: &[u8; 16]) -> Result<(), AllocError>
    ensures { OnOk result (text.new.items ≡ text.old.items ++ groups_text bytes.now) }
{
    push_first(text, bytes)?;
    push_last(text, bytes)
}

/// Adds an address to a text: `1.2.3.4:5` or `[a:b:c:d:e:f:0:1]:5`.
///
/// Where no memory is left, a beginning of it may have been added.
pub fn push_underlay(text: &mut Vec<u8>, underlay: &Underlay) -> Result<(), AllocError>
    ensures { OnOk result (text.new.items ≡ text.old.items ++ text_of underlay.now) }
{
    match &underlay.ip {
        Ip::V4(octets) => push_octets(text, octets)?,
        Ip::V6(bytes) => {
            text.push(b'[')?;
            push_groups(text, bytes)?;
            text.push(b']')?;
        }
    }
    text.push(b':')?;
    push_decimal(text, underlay.port)
}
