//! Links as texts name them.

ghost use Rattle.std.specs.Prelude.{◌≡◌};

use process_packet::{Bands, Ip, Link, Underlay};
use segment_switch::LinkKind;

pub fn underlay(ip: [u8; 4], port: u16) -> Underlay
    ensures { result.port ≡ port }
{
    Underlay {
        ip: Ip::V4(ip),
        port,
    }
}

/// A link over 10.n.0.0 between this router, at 10.n.0.1, and its neighbour, at 10.n.0.2.
pub fn link(id: u16, kind: LinkKind, network: u8, bands: Bands) -> Link
    ensures named { (result.id ≡ id) × (result.kind ≡ kind) × (result.bands ≡ bands) }
    ensures ports { (result.local.port ≡ 40000) × (result.remote.port ≡ 40000) }
{
    Link {
        id,
        kind,
        local: underlay([10, network, 0, 1], 40000),
        remote: underlay([10, network, 0, 2], 40000),
        bands,
        neighbor: None,
        bfd: false,
    }
}
