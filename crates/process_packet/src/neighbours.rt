//! What a border router's configuration says of the links, routers and services around it.

use crate::underlay::Underlay;
use scion_header::Domain;
use segment_switch::LinkKind;

/// How many bands a link has: packets of the high band overtake those of the other one.
#[derive(Clone, Copy, PartialEq, Eq)]
pub enum Bands {
    /// All packets leave in one order.
    One,
    /// A high band, for expedited forwarding, and a low one.
    Two,
}

impl Bands {
    ghost use Rattle.std.specs.Prelude.{◌≡◌};
    ghost use Rattle.process_packet.specs.Neighbours.{are_two};

    /// Whether they are two.
    pub fn are_two(&self) -> bool
        ensures { result ≡ are_two self.now }
    {
        match self {
            Bands::One => false,
            Bands::Two => true,
        }
    }
}

/// A link of this router to another AS.
#[derive(Clone, Copy, PartialEq, Eq)]
pub struct Link {
    /// The number of its interface, at least 1.
    pub id: u16,
    /// What the AS at its other end is.
    pub kind: LinkKind,
    /// The address and port of this router on the link.
    pub local: Underlay,
    /// The address and port of the neighbour.
    pub remote: Underlay,
    /// How many bands it has.
    pub bands: Bands,
    /// The AS at its other end, if one-hop paths are carried over the link.
    pub neighbor: Option<Domain>,
    /// Whether BFD control packets of that AS's router are answered (RFC 5880).
    pub bfd: bool,
}

/// An interface of another router of this AS.
#[derive(Clone, Copy, PartialEq, Eq)]
pub struct Sibling {
    /// The number of the interface, at least 1.
    pub id: u16,
    /// What the AS at the other end of the interface's link is.
    pub kind: LinkKind,
    /// The internal address and port of the router that owns it.
    pub at: Underlay,
}

/// Where a service of this AS is.
#[derive(Clone, Copy, PartialEq, Eq)]
pub struct Service {
    /// Its number, at most 32767.
    pub number: u16,
    /// The address and port within the AS.
    pub at: Underlay,
}
