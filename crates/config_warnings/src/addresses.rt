//! Addresses that are the same, or of one IP version.

ghost use Rattle.std.specs.Prelude.{◌≡◌};
ghost use Rattle.process_packet.specs.Underlay.{same_ip, same_underlay};
ghost use Rattle.config_warnings.specs.Addresses.{is_one_version, is_unspecified};

use address_kinds::{AddressKind, kind_of};
use process_packet::{Ip, Underlay};

fn is_same_ip(one: &Ip, other: &Ip) -> bool
    ensures { result ≡ same_ip one.now other.now }
{
    match (one, other) {
        (Ip::V4(a), Ip::V4(b)) => a == b,
        (Ip::V6(a), Ip::V6(b)) => a == b,
        _ => false,
    }
}

/// Whether both are the same address and port.
pub(crate) fn is_same(one: &Underlay, other: &Underlay) -> bool
    ensures { result ≡ same_underlay one.now other.now }
{
    one.port == other.port && is_same_ip(&one.ip, &other.ip)
}

/// Whether both are of one IP version.
pub(crate) fn is_one_version(one: &Ip, other: &Ip) -> bool
    ensures { result ≡ is_one_version one.now other.now }
{
    match (one, other) {
        (Ip::V4(_), Ip::V4(_)) => true,
        (Ip::V6(_), Ip::V6(_)) => true,
        _ => false,
    }
}

/// Whether the address names no interface.
pub(crate) fn is_unspecified(ip: &Ip) -> bool
    ensures { result ≡ is_unspecified ip.now }
{
    match kind_of(ip) {
        AddressKind::Unspecified => true,
        _ => false,
    }
}
