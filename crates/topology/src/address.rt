//! Addresses of the underlay, as scionproto writes them.
ghost use Rattle.std.specs.Prelude.{◌≡◌, IfSome};
ghost use Rattle.std.specs.Net.Grammar.{IsSocketText};
ghost use Rattle.std.specs.declared.net.socket_addr.SocketAddr.{SocketAddr};
ghost use Rattle.topology.specs.Address.{address_of, underlay_of};

use process_packet::{Ip, Underlay};
use std::net::SocketAddr;

/// The underlay's address of a socket's; none where its port is 0, or it is good on one of the
/// machine's networks alone.
fn underlay_of(address: SocketAddr) -> Option<Underlay>
    ensures { result ≡ underlay_of address }
{
    let port = address.port();
    if port == 0 {
        return None;
    }
    match address {
        SocketAddr::V4(address) => Some(Underlay {
            ip: Ip::V4(address.ip().octets()),
            port,
        }),
        SocketAddr::V6(address) => {
            if address.scope_id() != 0 {
                return None;
            }
            Some(Underlay {
                ip: Ip::V6(address.ip().octets()),
                port,
            })
        }
    }
}

/// The address and port that a text is, if it is one: `1.2.3.4:5` or `[fd00::1]:5`. An IPv6 address
/// may have `::` for its zeros, but no scope; the port isn't 0. A host name is none.
pub(crate) fn read_address(text: &str) -> Option<Underlay>
    ensures value { result ≡ address_of text.now }
    ensures spelled { IfSome result (λ underlay. (address : SocketAddr) × IsSocketText text.now address × (underlay_of address ≡ Some underlay)) }
{
    match text.parse::<SocketAddr>() {
        Ok(address) => underlay_of(address),
        Err(_) => None,
    }
}
