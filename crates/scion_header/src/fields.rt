//! Single fields of a header, read where they lie in a datagram that is as long as its addresses, whatever
//! its path's type; the traffic class, of any datagram.

ghost use Rattle.std.specs.Prelude.{◌≡◌, ◌≤◌, length, slice_index};
ghost use Rattle.scion_packet.specs.Header.{front_end, header_of};
ghost use Rattle.scion_header.specs.Address.{host_address};

use crate::address::Address;
use crate::domain::Domain;
use crate::reading::{address_at, addresses_end};
use field_rows::{u16_at, u32_at, u48_at};

/// The byte at a place; 0 where there is none.
fn byte_at(bytes: &[u8], at: usize) -> u8
    ensures { result ≡ slice_index bytes.now at }
{
    if at < bytes.len() { bytes[at] } else { 0 }
}

/// The traffic class (TrafficClass). It may be read of any bytes: one that isn't there counts as 0.
pub fn traffic_class(bytes: &[u8]) -> u8
    ensures { result ≡ (header_of bytes.now).traffic_class }
{
    byte_at(bytes, 0) % 16 * 16 + byte_at(bytes, 1) / 16
}

/// The flow that the source has chosen (FlowID), 20 bits.
pub fn flow_id(bytes: &[u8]) -> u32
    requires addresses { front_end bytes.now ≤ length bytes.now }
    ensures { result ≡ (header_of bytes.now).flow_id }
{
    u32_at(bytes, 0) & 0xf_ffff
}

/// Where the addresses end, counted in bytes from the datagram's start: the path begins there.
pub fn front_end(bytes: &[u8]) -> usize
    requires addresses { front_end bytes.now ≤ length bytes.now }
    ensures end { result ≡ front_end bytes.now }
    ensures whole { result ≤ length bytes.now }
{
    addresses_end(bytes[9])
}

/// The protocol of what follows the header (NextHdr).
pub fn next_header(bytes: &[u8]) -> u8
    requires addresses { front_end bytes.now ≤ length bytes.now }
    ensures { result ≡ (header_of bytes.now).next_header }
{
    bytes[4]
}

/// The length in bytes of what follows the header, as the header has it (PayloadLen).
pub fn payload_length(bytes: &[u8]) -> u16
    requires addresses { front_end bytes.now ≤ length bytes.now }
    ensures { result ≡ (header_of bytes.now).payload_length }
{
    u16_at(bytes, 6)
}

/// The destination's AS (DstISD, DstAS).
pub fn destination_domain(bytes: &[u8]) -> Domain
    requires addresses { front_end bytes.now ≤ length bytes.now }
    ensures isd { result.isd ≡ (header_of bytes.now).destination.isd }
    ensures autonomous_system { result.autonomous_system ≡ (header_of bytes.now).destination.autonomous_system }
{
    Domain {
        isd: u16_at(bytes, 12),
        autonomous_system: u48_at(bytes, 14),
    }
}

/// The source's AS (SrcISD, SrcAS).
pub fn source_domain(bytes: &[u8]) -> Domain
    requires addresses { front_end bytes.now ≤ length bytes.now }
    ensures isd { result.isd ≡ (header_of bytes.now).source.isd }
    ensures autonomous_system { result.autonomous_system ≡ (header_of bytes.now).source.autonomous_system }
{
    Domain {
        isd: u16_at(bytes, 20),
        autonomous_system: u48_at(bytes, 22),
    }
}

/// The destination with its host (DstISD, DstAS, DstHostAddr, by DT and DL).
pub fn destination_address(bytes: &[u8]) -> Address
    requires addresses { front_end bytes.now ≤ length bytes.now }
    ensures { host_address result ≡ (header_of bytes.now).destination }
{
    address_at(bytes, 12, 28, bytes[9] / 16)
}
