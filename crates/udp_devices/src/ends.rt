//! The two ends of a link, and where what leaves by it goes.

ghost use Rattle.std.specs.Prelude.{◌≡◌, ◌==◌, find};
ghost use Rattle.udp_devices.specs.Ends.{destination, ends_of, is_same_family};

use address_kinds::is_host_for;
use process_packet::{Config, Ip, Link, Underlay};

/// The ends of a link: this router's own, and the neighbour's. The internal network has many others.
#[derive(Clone, Copy)]
pub struct Ends {
    pub local: Underlay,
    pub remote: Option<Underlay>,
}

/// The link with an interface.
fn link_with(links: &[Link], id: u16) -> Option<Link>
    ensures { result ≡ find (λ own. own.id == id) links.now }
{
    links.iter().copied().find(|own| own.id == id)
}

/// The ends of the link with an interface. Where there is no such link, as for interface 0, it is the
/// internal network.
pub fn ends_of(config: &Config, interface: u16) -> Ends
    ensures { result ≡ ends_of config.now interface }
{
    match link_with(config.links.as_slice(), interface) {
        Some(own) => Ends {
            local: own.local,
            remote: Some(own.remote),
        },
        None => Ends {
            local: config.internal,
            remote: None,
        },
    }
}

/// Whether both are of one version.
fn is_same_family(one: &Ip, other: &Ip) -> bool
    ensures { result ≡ is_same_family one.now other.now }
{
    match (one, other) {
        (Ip::V4(_), Ip::V4(_)) => true,
        (Ip::V6(_), Ip::V6(_)) => true,
        _ => false,
    }
}

/// Where a datagram goes: to the address that it names, and else to the link's other end. It goes nowhere
/// where there is neither, where the address is of another IP version than the link's own, and where no host
/// can have it (`is_host_for`): one that is unspecified, a group's, the limited broadcast address, an IPv4
/// address written as one of IPv6, or a loopback address where the link's own is none.
pub fn destination(ends: &Ends, to: Option<Underlay>) -> Option<Underlay>
    ensures { result ≡ destination ends.now to }
{
    let to = to.or(ends.remote)?;
    if is_same_family(&ends.local.ip, &to.ip) && is_host_for(&ends.local.ip, &to.ip) {
        Some(to)
    } else {
        None
    }
}
