//! The MAC of a hop field, and what the hop fields of a segment are chained by.

ghost use Rattle.std.specs.Prelude.{◌≡◌, ◌∷◌, ◌++◌, length, take};
ghost use Rattle.std.specs.Int.{to_be_bytes, w64};
ghost use Rattle.std.specs.Str.{bytes_eq};
ghost use Rattle.cmac_core.specs.Cmac.{tag};
ghost use Rattle.hop_check.specs.Mac.{chain, is_authentic, mac6, mac_input};
ghost use Rattle.path_fields.specs.Fields.{hop_field, info_field};

use cmac_core::Cmac;
use field_rows::u16_at;
use path_fields::{Hop, Info};
use std::simd::prelude::*;

// Sixteen bytes, as two numbers of eight.
#[inline(always)]
fn block_of(front: u64, back: u64) -> [u8; 16]
    ensures { result ≡ to_be_bytes w64 front ++ to_be_bytes w64 back }
{
    u64x2::from_array([front.swap_bytes(), back.swap_bytes()])
        .to_le_bytes()
        .to_array()
}

// What the MAC of a hop field is made over, as two numbers of eight bytes.
#[inline(always)]
fn mac_halves(info: &Info, hop: &Hop) -> (u64, u64)
    ensures { to_be_bytes w64 result.0 ++ to_be_bytes w64 result.1
        ≡ mac_input info.now.segment_id (info_field info.now) (hop_field hop.now) }
{
    let front = u64::from(info.segment_id) * 0x1_0000_0000 + u64::from(info.timestamp);
    let back = u64::from(hop.expiry) * 0x1_0000_0000_0000
        + u64::from(hop.construction_ingress) * 0x1_0000_0000
        + u64::from(hop.construction_egress) * 0x1_0000;
    (front, back)
}

/// What the MAC of a hop field is made over: the segment's identifier (SegID) and timestamp, the hop's
/// expiry and its two interfaces, in sixteen bytes (draft-dekater-scion-dataplane, "Hop Field MAC
/// Computation").
pub fn mac_input(info: &Info, hop: &Hop) -> [u8; 16]
    ensures { result ≡ mac_input info.now.segment_id (info_field info.now) (hop_field hop.now) }
{
    let (front, back) = mac_halves(info, hop);
    block_of(front, back)
}

/// The MAC that the AS's key gives a hop field, for the segment's identifier as it is in the info field: six
/// bytes (draft-dekater-scion-dataplane, "Hop Field MAC Computation"). The MAC that the hop field carries isn't
/// looked at.
#[inline(always)]
pub fn hop_mac(cmac: &Cmac, info: &Info, hop: &Hop) -> [u8; 6]
    ensures mac { result ≡ mac6 cmac.now info.now.segment_id (info_field info.now) (hop_field hop.now) }
    ensures len { length result ≡ 6 }
{
    cmac.tag6_block(&mac_input(info, hop))
}

// The six bytes of a MAC as one number.
#[inline(always)]
fn number_of(mac: &[u8; 6]) -> u64
    ensures { to_be_bytes w64 result ≡ 0 ∷ 0 ∷ mac.now }
{
    u64::from_be_bytes([0, 0, mac[0], mac[1], mac[2], mac[3], mac[4], mac[5]])
}

// Whether the first six bytes of the block's tag are those of this MAC.
//
// They are compared all at once, so that no branch tells which of them differ. It is a function of its own in the built
// program, so that its machine code can be read (`make constant-time`). Block and MAC are given as numbers, since bytes
// behind references would have to be written to memory first, and read again.
#[inline(never)]
fn has_mac(cmac: &Cmac, front: u64, back: u64, mac: u64) -> bool
    ensures { result
        ≡ bytes_eq (to_be_bytes w64 mac) (0 ∷ 0 ∷ take 6 (tag cmac.now (to_be_bytes w64 front ++ to_be_bytes w64 back))) }
{
    mac == number_of(&cmac.tag6_block(&block_of(front, back)))
}

/// Whether all six bytes of the hop field's MAC are those that the AS's key gives for the segment's
/// identifier as it is in the info field.
#[inline(always)]
pub fn verify(cmac: &Cmac, info: &Info, hop: &Hop) -> bool
    ensures { result ≡ is_authentic cmac.now (info_field info.now) (hop_field hop.now) }
{
    let (front, back) = mac_halves(info, hop);
    has_mac(cmac, front, back, number_of(&hop.mac))
}

/// The segment identifier after a hop with this MAC, in the direction of construction; from that one,
/// the one before it. It is the identifier with the MAC's first two bytes xored in.
pub fn chain(seg_id: u16, mac: &[u8; 6]) -> u16
    ensures { result ≡ chain seg_id mac.now }
{
    seg_id ^ u16_at(mac, 0)
}
