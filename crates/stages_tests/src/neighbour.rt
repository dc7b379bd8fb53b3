//! The sample routers' neighbour.

use process_packet::{Ip, Underlay};

/// The other end of link 1.
pub const NEAR: Underlay = Underlay {
    ip: Ip::V4([10, 1, 0, 2]),
    port: 40000,
};
