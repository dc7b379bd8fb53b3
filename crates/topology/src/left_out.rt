//! What a topology says and this router's configuration can't.

use crate::fault::Place;
use process_packet::PortRange;
use std::fmt;

/// A part of a topology that isn't carried over.
#[derive(Clone, Copy)]
pub enum LeftOut<'t> {
    /// An interface of a peering link.
    Peering(Place<'t>),
    /// An interface over an underlay that isn't UDP over IP.
    Provider(Place<'t>, &'t str),
    /// A timer of BFD: answers follow the neighbour's.
    Timer(Place<'t>, &'static str),
    /// A service after the first one of its kind.
    Further(Place<'t>),
    /// The ports at which applications listen themselves.
    Ports(PortRange),
}

impl fmt::Display for LeftOut<'_> {
    fn fmt<W: fmt::Write>(&self, f: &mut fmt::Formatter<W>) -> fmt::Result {
        match self {
            LeftOut::Peering(place) => write!(
                f,
                "{place} is left out: peering links aren't carried"
            ),
            LeftOut::Provider(place, name) => {
                write!(
                    f,
                    "{place} is left out: its underlay is {name:?}, and not UDP over IP"
                )
            }
            LeftOut::Timer(place, key) => {
                write!(
                    f,
                    "{key:?} of {place} is left out: answers to BFD follow the neighbour's timers"
                )
            }
            LeftOut::Further(place) => write!(f, "{place} is left out: a service has one address"),
            LeftOut::Ports(PortRange { first, last }) => write!(
                f,
                "`dispatched_ports` {first}-{last} is left out: --port-range carries it"
            ),
        }
    }
}
