//! Memory for one datagram.

ghost use Rattle.std.specs.Prelude.{◌≡◌, IfOk, length};
ghost use Rattle.worker_parts.specs.Buffer.{buffer_len};

use process_packet::{Ip, Underlay};
use router_rules::{Interface, LinkIndex};
use std::alloc::{AllocError, Global};
use std::marker::Model;

/// The length of a buffer in bytes: one more than the longest datagram that is carried, so that a
/// longer one is seen to be too long.
pub const BUFFER_LEN: usize = 9217;

/// The bytes of a buffer, and before them what is known of the datagram in them, on the same cache lines as its header.
/// It keeps its place in memory: what one worker hands to the next is its owner.
pub(crate) struct Storage {
    pub(crate) len: usize,
    // of the datagram's arrival: its link, and its number among the link's
    pub(crate) link: LinkIndex,
    pub(crate) interface: Interface,
    pub(crate) number: u64,
    pub(crate) source: Underlay,
    pub(crate) moment: u64,
    // of what leaves
    pub(crate) egress: LinkIndex,
    pub(crate) to: Option<Underlay>,
    pub(crate) bytes: [u8; BUFFER_LEN],
}

impl Drop for Storage {
    fn drop(self) {
        let Storage {
            len: _,
            link: _,
            interface: _,
            number: _,
            source: _,
            moment: _,
            egress: _,
            to: _,
            bytes: _,
        } = self;
    }
}

/// Memory for one datagram. Contracts see its bytes, all 9,217.
#[derive(Drop)]
pub struct Buffer {
    pub(crate) storage: Box<Storage>,
}

impl Model for Buffer {
    ghost use Rattle.std.specs.Prelude.{◌≡◌, ℕ, List, length};
    ghost use Rattle.worker_parts.specs.Buffer.{buffer_len};

    ghost Value = { List ℕ };

    ghost view = { λ b. b.storage.value.bytes };

    ghost invariant = { λ b. length b.storage.value.bytes ≡ buffer_len };
}

impl Buffer {
    /// A buffer in memory of its own. `Err` where no memory is left.
    pub fn new(alloc: Global) -> Result<Buffer, AllocError>
        ensures { IfOk result (λ b. length b ≡ buffer_len) }
    {
        let storage = Storage {
            len: 0,
            link: LinkIndex::of(0),
            interface: Interface::of(0),
            number: 0,
            source: Underlay {
                ip: Ip::V4([0; 4]),
                port: 0,
            },
            moment: 0,
            egress: LinkIndex::of(0),
            to: None,
            bytes: [0; BUFFER_LEN],
        };
        let storage = Box::new(alloc, storage)?;
        Ok(Buffer { storage })
    }
}
