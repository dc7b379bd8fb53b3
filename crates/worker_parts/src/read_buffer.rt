//! A buffer into which datagrams are read.

ghost use Rattle.std.specs.Prelude.{◌≡◌, ◌+◌, ◌-◌, ◌^◌, ◌<◌, ◌≤◌, length, take};
ghost use Rattle.worker_laws.specs.Forwards.{AddsTo};
ghost use Rattle.worker_parts.specs.Heard.{failures_of, fits, heard};
ghost use Rattle.worker_parts.specs.Buffer.{buffer_len};

use crate::buffer::{Buffer, Storage};
use crate::source::{NextLen, Source};
use std::marker::Model;

/// A buffer into which datagrams are read. Contracts see its bytes, all 9,217.
#[derive(Drop)]
pub struct ReadBuffer {
    pub(crate) storage: Box<Storage>,
}

impl Model for ReadBuffer {
    ghost use Rattle.std.specs.Prelude.{◌≡◌, ℕ, List, length};
    ghost use Rattle.worker_parts.specs.Buffer.{buffer_len};

    ghost Value = { List ℕ };

    ghost view = { λ b. b.storage.value.bytes };

    ghost invariant = { λ b. length b.storage.value.bytes ≡ buffer_len };
}

impl ReadBuffer {
    /// A free buffer, to be read into.
    pub fn of(buffer: Buffer) -> ReadBuffer
        ensures same { result ≡ buffer }
        ensures long { length result ≡ buffer_len }
    {
        let Buffer { storage } = buffer;
        ReadBuffer { storage }
    }

    /// Reads the source's next answer.
    pub fn read<S: Source>(&mut self, source: &mut S) -> NextLen
        requires { S.failed source.old < 2 ^ 64 - 1 }
        ensures long { length self.new ≡ buffer_len }
        ensures fits { fits result }
        ensures failed { S.failed source.new ≡ S.failed source.old + failures_of result }
        ensures told { AddsTo (S.told source.old) (heard self.new result) (S.told source.new) }
        ensures device { S.same source.old source.new }
    {
        source.next_into(self.storage.bytes.as_mut_slice())
    }

    /// The first bytes of what was read.
    pub fn front(&self, len: usize) -> &[u8]
        requires { len ≤ buffer_len }
        ensures { result.now ≡ take len self.now }
    {
        &self.storage.bytes[..len]
    }
}
