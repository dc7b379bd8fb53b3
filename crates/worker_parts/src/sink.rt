//! Where datagrams go.

ghost use Rattle.std.specs.Prelude.{◌≡◌, ◌+◌, ◌-◌, ◌^◌, ◌<◌, ℕ, List, Option, is_ok, if◌then◌else◌};
ghost use Rattle.worker_laws.specs.Forwards.{AddsTo};
ghost use Rattle.worker_parts.specs.Told.{Told, telling};

use router_rules::Outgoing;

/// A sink failed to send.
#[derive(Clone, Copy)]
pub struct SinkFault;

/// A sink of datagrams.
pub trait Sink {
    ghost use Rattle.std.specs.Prelude.{ℕ, List, Option};
    ghost use Rattle.worker_parts.specs.Told.{Told};

    /// All that it was handed so far, each with whether it took it, where it tells that.
    ghost told: { Self → Option (List Told) };

    /// How often it failed.
    ghost failed: { Self → ℕ };

    /// The same device, whatever it did between: no call makes it another one.
    ghost same: { Self → Self → Type 0 };

    ghost same_self: { (x : Self) → same x x };

    ghost same_then: { (x y z : Self) → same x y → same y z → same x z };

    /// Sends a datagram.
    fn send(&mut self, out: &Outgoing, bytes: &[u8]) -> Result<(), SinkFault>
        requires { failed self.old < 2 ^ 64 - 1 }
        ensures failed { failed self.new ≡ failed self.old + (if is_ok result then 0 else 1) }
        ensures told { AddsTo (told self.old) (telling out.now bytes.now (is_ok result)) (told self.new) }
        ensures device { same self.old self.new };

    /// How often it failed.
    fn failures(&self) -> u64
        ensures { result ≡ failed self.now };
}
