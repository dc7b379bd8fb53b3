//! The buffers of a receiver.

ghost use Rattle.std.specs.Prelude.{◌≡◌, ◌+◌, ◌-◌, ◌^◌, ◌<◌, ◌≤◌, None, Some, MatchOption, length, take};
ghost use Rattle.worker_laws.specs.Forwards.{AddsTo};
ghost use Rattle.worker_parts.specs.Heard.{failures_of, fits, heard};
ghost use Rattle.worker_receiver.specs.Pool.{Another, Found, FoundNone, buffer_in, stock};
ghost use Rattle.worker_parts.specs.Buffer.{buffer_len};

use ruled_pipe::{Consumer, Entry, Load};
use std::marker::Model;
use std::mem;
use std::sync::Wait;
use worker_parts::{Buffer, NextLen, ReadBuffer, Source};

/// The buffer into which datagrams are read, at times one in reserve, and the pipe of the free ones.
pub struct Pool {
    room: ReadBuffer,
    spare: Option<Buffer>,
    free: Consumer<Buffer>,
}

impl Model for Pool {
    ghost use Rattle.worker_receiver.specs.Pool.{Pooled, stock};

    ghost Value = { Pooled };

    ghost view = { λ p. record { room = p.room; stock = stock p.spare p.free } };
}

impl Drop for Pool {
    fn drop(self) {
        let Pool {
            room: _,
            spare: _,
            free: _,
        } = self;
    }
}

// The buffer of an entry; none of a mark.
fn buffer_of(entry: Entry<Buffer>) -> Option<Buffer>
    ensures { result ≡ buffer_in entry.load }
{
    match entry.load {
        Load::Payload(buffer) => Some(buffer),
        Load::Marked(_) => None,
    }
}

// Takes a buffer from the pipe of the free ones, past marks.
fn take_buffer<R: Wait>(rt: &R, free: &mut Consumer<Buffer>) -> Option<Buffer>
    ensures { MatchOption result (FoundNone free.old free.new) (λ b. Found b free.old free.new) }
{
    for _ in rt.forever() {
        let Some(entry) = free.take(rt) else {
            return None;
        };
        if let Some(buffer) = buffer_of(entry) {
            return Some(buffer);
        }
    }
    unreachable!()
}

impl Pool {
    /// The pool that reads into this buffer, and takes free ones from the pipe.
    pub fn new(first: Buffer, free: Consumer<Buffer>) -> Pool
        ensures { result.stock ≡ stock None free }
    {
        Pool {
            room: ReadBuffer::of(first),
            spare: None,
            free,
        }
    }

    /// The end of the pipe of free buffers; the buffers in hand are dropped.
    pub fn into_free(self) -> Consumer<Buffer>
        ensures { result ≡ self.stock.free }
    {
        let Pool {
            room: _,
            spare: _,
            free,
        } = self;
        free
    }

    /// Reads the source's next answer.
    pub fn read<S: Source>(&mut self, source: &mut S) -> NextLen
        requires { S.failed source.old < 2 ^ 64 - 1 }
        ensures stock { self.new.stock ≡ self.old.stock }
        ensures fits { fits result }
        ensures failed { S.failed source.new ≡ S.failed source.old + failures_of result }
        ensures told { AddsTo (S.told source.old) (heard self.new.room result) (S.told source.new) }
        ensures device { S.same source.old source.new }
    {
        self.room.read(source)
    }

    /// The first bytes of what was read.
    pub fn front(&self, len: usize) -> &[u8]
        requires { len ≤ buffer_len }
        ensures { result.now ≡ take len self.now.room }
    {
        self.room.front(len)
    }

    /// Another buffer: the one in reserve, else one of the pipe.
    pub fn another<R: Wait>(&mut self, rt: &R) -> Option<Buffer>
        ensures room { self.new.room ≡ self.old.room }
        ensures got { Another self.old.stock result self.new.stock }
    {
        if let Some(buffer) = self.spare.take() {
            return Some(buffer);
        }
        take_buffer(rt, &mut self.free)
    }

    /// Puts another buffer in the place of the one that was read into, and gives that.
    pub fn exchange(&mut self, buffer: Buffer) -> ReadBuffer
        ensures bytes { result ≡ self.old.room }
        ensures stock { self.new.stock ≡ self.old.stock }
    {
        mem::replace(&mut self.room, ReadBuffer::of(buffer))
    }

    /// Keeps a buffer in reserve.
    pub fn keep(&mut self, buffer: Buffer)
        ensures { self.new.stock ≡ stock (Some buffer) self.old.stock.free }
    {
        self.spare = Some(buffer);
    }
}
