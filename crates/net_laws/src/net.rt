//! A net of border routers, and the wires between their links.

use process_packet::Config;

/// An end of a wire.
#[derive(Clone, Copy, PartialEq, Eq)]
pub struct End {
    /// The router, by its place among the net's configurations, from 0 on.
    pub router: usize,
    /// The number of its link.
    pub link: u16,
}

/// A wire between two links.
#[derive(Clone, Copy)]
pub struct Wire {
    /// Either of its ends.
    pub one: End,
    /// The end opposite to that one.
    pub other: End,
}

/// Border routers of any number of ASes, and the wires between their links. A link may have no wire.
#[derive(Drop)]
pub struct Net {
    /// A configuration for each router.
    pub configs: Vec<Config>,
    /// The wires, in any order.
    pub wires: Vec<Wire>,
}
