//! How a header is read.

ghost use Rattle.std.specs.Prelude.{◌≡◌, ◌+◌, ◌/◌, ◌%◌, ◌<◌, ◌≤◌, length, slice_index, None, Some, MatchResult, IfOk};
ghost use Rattle.scion_packet.specs.Header.{address_of, front_end, header_end, header_fault, header_fault_as, header_of, host_kinds, host_len, scion_path};
ghost use Rattle.scion_header.specs.Address.{host_address};
ghost use Rattle.scion_header.specs.Fault.{fault_of};
ghost use Rattle.scion_header.specs.Header.{header_fields};
ghost use Rattle.scion_header.specs.Host.{length_code};

use crate::address::Address;
use crate::ends::HeaderEnds;
use crate::fault::HeaderFault;
use crate::fields::traffic_class;
use crate::header::Header;
use crate::host::host_at;
use field_rows::{u16_at, u32_at, u48_at};

/// The path type of a SCION path (PathType).
pub(crate) const SCION_PATH: u8 = 1;

/// How many bytes a host of this length code has.
fn host_len(code: u8) -> usize
    requires { code < 4 }
    ensures { result ≡ host_len code }
{
    4 * (usize::from(code) + 1)
}

/// The address whose domain and host begin at these places, by its four bits of byte 9.
pub(crate) fn address_at(bytes: &[u8], domain: usize, host: usize, bits: u8) -> Address
    requires bits { bits < 16 }
    requires domain_room { domain + 8 ≤ length bytes.now }
    requires host_room { host + host_len (bits % 4) ≤ length bytes.now }
    ensures address { host_address result ≡ address_of bytes.now domain host bits }
    ensures code { length_code result.host ≡ bits % 4 }
{
    Address {
        isd: u16_at(bytes, domain),
        autonomous_system: u48_at(bytes, domain + 2),
        kind: bits / 4,
        host: host_at(bytes, host, bits % 4),
    }
}

/// Where the source host begins, by byte 9 of the datagram.
fn source_host(kinds: u8) -> usize
    ensures { result ≡ 28 + host_len (kinds / 16 % 4) }
{
    28 + host_len(kinds / 16 % 4)
}

/// Where the addresses end, by byte 9 of the datagram.
pub(crate) fn addresses_end(kinds: u8) -> usize
    ensures { result ≡ 28 + host_len (kinds / 16 % 4) + host_len (kinds % 4) }
{
    source_host(kinds) + host_len(kinds % 4)
}

/// The header of a datagram that passed the tests.
fn header_at(bytes: &[u8]) -> Header
    requires path_type { slice_index bytes.now 8 ≡ scion_path }
    requires whole { front_end bytes.now ≤ length bytes.now }
    requires covers { front_end bytes.now ≤ header_end bytes.now }
    ensures { header_fields result ≡ header_of bytes.now }
{
    let kinds = bytes[9];
    Header {
        traffic_class: traffic_class(bytes),
        flow_id: u32_at(bytes, 0) & 0xf_ffff,
        next_header: bytes[4],
        header_length: bytes[5],
        payload_length: u16_at(bytes, 6),
        reserved: u16_at(bytes, 10),
        destination: address_at(bytes, 12, 28, kinds / 16),
        source: address_at(bytes, 20, source_host(kinds), kinds % 16),
    }
}

/// Where the parts of a datagram's header end, where all its tests pass; else the fault of the first
/// that fails: the length of the common header, the version, that the path is of this type (PathType),
/// that the header covers its addresses, and that the datagram is as long as its header says. No
/// address is looked at.
#[inline(always)]
pub fn check_header_as(path_type: u8, bytes: &[u8]) -> Result<HeaderEnds, HeaderFault>
    ensures fault { MatchResult result (λ _. header_fault_as path_type bytes.now ≡ None) (λ e. header_fault_as path_type bytes.now ≡ Some (fault_of e)) }
    ensures addresses { IfOk result (λ ends. ends.addresses ≡ front_end bytes.now) }
    ensures header { IfOk result (λ ends. ends.header ≡ header_end bytes.now) }
    // what the tests show
    ensures covers { IfOk result (λ ends. ends.addresses ≤ ends.header) }
    ensures whole { IfOk result (λ ends. ends.header ≤ length bytes.now) }
{
    if bytes.len() < 12 {
        return Err(HeaderFault::Short);
    }
    if bytes[0] / 16 != 0 {
        return Err(HeaderFault::Version);
    }
    if bytes[8] != path_type {
        return Err(HeaderFault::PathType);
    }
    let addresses = addresses_end(bytes[9]);
    let header = 4 * usize::from(bytes[5]);
    if header < addresses {
        return Err(HeaderFault::Header);
    }
    if bytes.len() < header {
        return Err(HeaderFault::Short);
    }
    Ok(HeaderEnds { addresses, header })
}

/// What `check_header_as` tells of a datagram on a SCION path (path type 1).
pub fn check_header(bytes: &[u8]) -> Result<HeaderEnds, HeaderFault>
    ensures fault { MatchResult result (λ _. header_fault bytes.now ≡ None) (λ e. header_fault bytes.now ≡ Some (fault_of e)) }
    ensures addresses { IfOk result (λ ends. ends.addresses ≡ front_end bytes.now) }
    ensures header { IfOk result (λ ends. ends.header ≡ header_end bytes.now) }
    // what the tests show
    ensures covers { IfOk result (λ ends. ends.addresses ≤ ends.header) }
    ensures whole { IfOk result (λ ends. ends.header ≤ length bytes.now) }
{
    check_header_as(SCION_PATH, bytes)
}

/// The header of a datagram, where all its tests pass; else the fault of the first that fails, as
/// `check_header` tells it.
pub fn read_header(bytes: &[u8]) -> Result<Header, HeaderFault>
    ensures header { IfOk result (λ h. header_fields h ≡ header_of bytes.now) }
    ensures fault { MatchResult result (λ _. header_fault bytes.now ≡ None) (λ e. header_fault bytes.now ≡ Some (fault_of e)) }
{
    check_header(bytes)?;
    Ok(header_at(bytes))
}
