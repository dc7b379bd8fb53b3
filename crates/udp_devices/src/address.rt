//! The underlay's addresses as the system's.

ghost use Rattle.std.specs.Prelude.{◌≡◌};
ghost use Rattle.std.specs.Net.Addr.{ipv6_octets};
ghost use Rattle.std.specs.Net.Socket.{IsPlainSocket};
ghost use Rattle.udp_devices.specs.Address.{ip_of, underlay_of};

use process_packet::{Ip, Underlay};
use std::net::{IpAddr, Ipv4Addr, Ipv6Addr, SocketAddr};

/// The system's IPv6 address with these bytes.
fn system_v6(bytes: &[u8; 16]) -> Ipv6Addr
    ensures { ipv6_octets result ≡ bytes.now }
{
    Ipv6Addr::from_octets(*bytes)
}

/// The system's IP address with these bytes.
fn system_ip(ip: Ip) -> IpAddr
    ensures { ip_of result ≡ ip }
{
    match ip {
        Ip::V4(bytes) => IpAddr::V4(Ipv4Addr::from_octets(bytes)),
        Ip::V6(bytes) => IpAddr::V6(system_v6(&bytes)),
    }
}

/// The bytes of the system's IP address.
fn plain_ip(ip: IpAddr) -> Ip
    ensures { result ≡ ip_of ip }
{
    match ip {
        IpAddr::V4(ip) => Ip::V4(ip.octets()),
        IpAddr::V6(ip) => Ip::V6(ip.octets()),
    }
}

/// The system's address of an underlay's address: without flow information, and in no scope.
pub fn socket_address(at: Underlay) -> SocketAddr
    ensures same { underlay_of result ≡ at }
    ensures plain { IsPlainSocket result at.port }
{
    SocketAddr::new(system_ip(at.ip), at.port)
}

/// The underlay's address of the system's.
pub fn underlay_of(address: SocketAddr) -> Underlay
    ensures { result ≡ underlay_of address }
{
    Underlay {
        ip: plain_ip(address.ip()),
        port: address.port(),
    }
}
