//! Free buffers that go back to their link.

ghost use Rattle.std.specs.Prelude.{◌<◌, length};
ghost use Rattle.worker_parts.specs.GivingBack.{GaveBack};

use crate::buffer::Buffer;
use router_rules::LinkIndex;
use ruled_pipe::Producer;
use std::sync::Wait;

/// Offers a buffer to the free ones of a link. One that is refused is let go.
pub fn give_back<R: Wait>(rt: &R, free: &mut Vec<Producer<Buffer>>, link: LinkIndex, buffer: Buffer)
    requires { link < length free.old.items }
    ensures { GaveBack link buffer free.old.items free.new.items }
{
    let _ = free[link.place()].offer(rt, buffer);
}
