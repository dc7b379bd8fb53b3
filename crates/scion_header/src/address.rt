//! The address of an end host.

ghost use Rattle.std.specs.Prelude.{◌≡◌, ◌<◌, ◌^◌, length};
ghost use Rattle.scion_packet.specs.Header.{host_len};
ghost use Rattle.scion_header.specs.Host.{host_bytes, length_code};

use crate::host::Host;

/// The address of an end host: its isolation domain, its autonomous system and the host there.
#[derive(Clone, Copy, PartialEq, Eq)]
pub struct Address {
    /// The isolation domain, 16 bits.
    pub isd: u16,
    /// The AS number, 48 bits.
    pub autonomous_system: u64,
    /// What kind of address the host has (DT, ST), two bits: with four bytes 0 is IPv4 and 1 a
    /// service, with sixteen bytes 0 is IPv6.
    pub kind: u8,
    /// The address of the host within its AS.
    pub host: Host,
    pub ghost isd_fits: { isd < 2 ^ 16 },
    pub ghost autonomous_system_fits: { autonomous_system < 2 ^ 48 },
    pub ghost kind_fits: { kind < 2 ^ 2 },
    pub ghost host_is_whole: { length (host_bytes host) ≡ host_len (length_code host) },
}
