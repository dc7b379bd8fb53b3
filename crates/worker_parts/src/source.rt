//! Where datagrams come from.

ghost use Rattle.std.specs.Prelude.{◌≡◌, ◌+◌, ◌-◌, ◌^◌, ◌<◌, ◌≤◌, ℕ, List, Option, length};
ghost use Rattle.worker_laws.specs.Forwards.{AddsTo};
ghost use Rattle.worker_order.specs.Heard.{Heard};
ghost use Rattle.worker_parts.specs.Heard.{failures_of, fits, heard};

use process_packet::Underlay;

/// What a source answers.
#[derive(Clone, Copy, PartialEq, Eq)]
pub enum NextLen {
    /// A datagram of `len` bytes, now at the front of the buffer, with the underlay's source and the
    /// time in seconds of Unix time. A longer one is cut to the buffer.
    Datagram {
        len: usize,
        from: Underlay,
        now: u64,
    },
    /// There is none at the moment.
    Quiet,
    /// The device failed.
    Failed,
    /// There will be none any more.
    End,
}

/// A source of datagrams.
pub trait Source {
    ghost use Rattle.std.specs.Prelude.{Bool, ℕ, List, Option};
    ghost use Rattle.worker_order.specs.Heard.{Heard};
    ghost use Rattle.worker_parts.specs.Buffer.{buffer_len};

    /// All its answers so far, where it tells them.
    ghost told: { Self → Option (List Heard) };

    /// How often it failed.
    ghost failed: { Self → ℕ };

    /// The same device, whatever it did between: no call makes it another one.
    ghost same: { Self → Self → Type 0 };

    ghost same_self: { (x : Self) → same x x };

    ghost same_then: { (x y z : Self) → same x y → same y z → same x z };

    /// What it may say of a wait: whether it waited in a way of its own.
    ghost waits: { Self → Bool → Type 0 };

    /// Reads a datagram into a buffer of 9,217 bytes.
    fn next_into(&mut self, buffer: &mut [u8]) -> NextLen
        requires failures { failed self.old < 2 ^ 64 - 1 }
        requires room { length buffer.old ≡ buffer_len }
        ensures same { length buffer.new ≡ length buffer.old }
        ensures fits { fits result }
        ensures failed { failed self.new ≡ failed self.old + failures_of result }
        ensures told { AddsTo (told self.old) (heard buffer.new result) (told self.new) }
        ensures device { same self.old self.new };

    /// Waits until there may be a datagram, or has the next read wait for one, and says whether it does: at false its
    /// caller has to wait in a way of its own. Either may end at any moment, and is to end within a tenth of a second.
    fn wait(&mut self) -> bool
        ensures told { told self.new ≡ told self.old }
        ensures failed { failed self.new ≡ failed self.old }
        ensures waits { waits self.old result }
        ensures device { same self.old self.new };

    /// How often it failed.
    fn failures(&self) -> u64
        ensures { result ≡ failed self.now };
}
