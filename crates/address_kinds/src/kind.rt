//! What an IP address stands for.

ghost use Rattle.std.specs.Prelude.{◌≡◌, length};
ghost use Rattle.address_kinds.specs.Kind.{kind_of, kind_of_v4, kind_of_v6};

use process_packet::Ip;

/// What an IP address stands for (RFC 1122, section 3.2.1.3; RFC 5735; RFC 4291, sections 2.4 to 2.7).
#[derive(Clone, Copy)]
pub enum AddressKind {
    /// One interface, as far as the address tells.
    Unicast,
    /// No interface: 0.0.0.0 and `::`.
    Unspecified,
    /// The machine itself: 127.0.0.0/8 and `::1`.
    Loopback,
    /// A group of interfaces: 224.0.0.0/4 and ff00::/8.
    Multicast,
    /// All interfaces of the network that the machine is in: 255.255.255.255.
    Broadcast,
    /// An IPv4 address, written as one of IPv6: ::ffff:0:0/96.
    Mapped,
}

const UNSPECIFIED_V6: [u8; 16] = [0, 0, 0, 0, 0, 0, 0, 0, 0, 0, 0, 0, 0, 0, 0, 0];

const LOOPBACK_V6: [u8; 16] = [0, 0, 0, 0, 0, 0, 0, 0, 0, 0, 0, 0, 0, 0, 0, 1];

const MAPPED_PREFIX: [u8; 12] = [0, 0, 0, 0, 0, 0, 0, 0, 0, 0, 255, 255];

/// The kind of an IPv4 address.
fn kind_of_v4(bytes: &[u8; 4]) -> AddressKind
    ensures { result ≡ kind_of_v4 bytes.now }
{
    if *bytes == [0, 0, 0, 0] {
        AddressKind::Unspecified
    } else if *bytes == [255, 255, 255, 255] {
        AddressKind::Broadcast
    } else if bytes[0] == 127 {
        AddressKind::Loopback
    } else if 224 <= bytes[0] && bytes[0] <= 239 {
        AddressKind::Multicast
    } else {
        AddressKind::Unicast
    }
}

/// The kind of an IPv6 address.
fn kind_of_v6(bytes: &[u8; 16]) -> AddressKind
    ensures { result ≡ kind_of_v6 bytes.now }
{
    if *bytes == UNSPECIFIED_V6 {
        AddressKind::Unspecified
    } else if *bytes == LOOPBACK_V6 {
        AddressKind::Loopback
    } else if bytes[0] == 255 {
        AddressKind::Multicast
    } else if &bytes[..12] == MAPPED_PREFIX.as_slice() {
        AddressKind::Mapped
    } else {
        AddressKind::Unicast
    }
}

/// What an address stands for.
pub fn kind_of(ip: &Ip) -> AddressKind
    ensures { result ≡ kind_of ip.now }
{
    match ip {
        Ip::V4(bytes) => kind_of_v4(bytes),
        Ip::V6(bytes) => kind_of_v6(bytes),
    }
}
