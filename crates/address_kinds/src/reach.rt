//! Which addresses a host can have, as a machine sees it.

ghost use Rattle.std.specs.Prelude.{◌≡◌};
ghost use Rattle.address_kinds.specs.Reach.{is_host_for, reaches};

use crate::kind::{AddressKind, kind_of};
use process_packet::Ip;

/// Whether what sends from an address of the one kind finds a host at one of the other.
fn reaches(own: AddressKind, to: AddressKind) -> bool
    ensures { result ≡ reaches own to }
{
    match (own, to) {
        (_, AddressKind::Unicast) => true,
        (AddressKind::Loopback, AddressKind::Loopback) => true,
        _ => false,
    }
}

/// Whether a host can have the address `to`, for what is sent from `own`. No host has one that is
/// unspecified, a group's, the limited broadcast address or an IPv4 address written as one of IPv6. A
/// loopback address is that of another host in the eyes of a loopback address alone: packets between others
/// never carry it (RFC 1122, section 3.2.1.3; RFC 4291, section 2.5.3).
pub fn is_host_for(own: &Ip, to: &Ip) -> bool
    ensures { result ≡ is_host_for own.now to.now }
{
    reaches(kind_of(own), kind_of(to))
}
