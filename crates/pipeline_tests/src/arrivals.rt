//! What comes by a link.

ghost use Rattle.std.specs.Prelude.{◌≡◌, IfOk};

use process_packet::{Arrival, Ip, Underlay};
use std::alloc::{AllocError, Global};

/// What comes by link 1 with this number.
pub fn arrival(alloc: Global, number: u64, now: u64, bytes: &[u8]) -> Result<Arrival, AllocError>
    ensures { IfOk result (λ x. (x.link ≡ 1) × (x.number ≡ number)) }
{
    Ok(Arrival {
        link: 1,
        number,
        source: Underlay {
            ip: Ip::V4([10, 1, 0, 2]),
            port: 40000,
        },
        now,
        bytes: Vec::from_slice(alloc, bytes)?,
    })
}
