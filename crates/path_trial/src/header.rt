//! The first bytes of a datagram from an IPv4 host to another one, or to a service.

ghost use Rattle.std.specs.Prelude.{◌≡◌, ◌≤◌, ◌<◌};
ghost use Rattle.scion_header.specs.declared.host.Host.TheVariants as Host;

use crate::segment::Place;
use scion_header::{Address, Header, Host, write_header};

/// How many bytes the common header and two AS numbers with a host of four bytes each have: the path begins
/// after them.
pub const FRONT: usize = 36;

/// Kinds of addresses of four bytes.
pub const IPV4: u8 = 0;

pub const SERVICE: u8 = 1;

/// The address of a host or a service.
fn address_of(kind: u8, place: Place) -> Address
    requires { kind < 4 }
    ensures { result.host ≡ Host.Four place.host }
{
    Address {
        isd: place.isd,
        autonomous_system: place.autonomous_system,
        kind,
        host: Host::Four(place.host),
    }
}

/// What a header tells besides its ends: its own length with the path's, in units of four bytes, and the
/// protocol and the length of the payload.
#[derive(Clone, Copy)]
pub struct Told {
    pub words: u8,
    pub protocol: u8,
    pub payload: usize,
    pub ghost covers_addresses: { 9 ≤ words },
}

/// The first bytes of a datagram from a host to a host or a service: the common header and the addresses.
pub fn front_of(told: Told, kind: u8, to: Place, from: Place) -> [u8; FRONT]
    requires { kind < 4 }
{
    let header = Header {
        traffic_class: 0,
        flow_id: 1,
        next_header: told.protocol,
        header_length: told.words,
        payload_length: told.payload.min(1000) as u16,
        reserved: 0,
        destination: address_of(kind, to),
        source: address_of(IPV4, from),
    };
    let mut front = [0; FRONT];
    let _ = write_header(&header, &mut front);
    front
}
