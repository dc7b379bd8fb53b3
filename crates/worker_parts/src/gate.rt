//! What holds a packet back.

use router_rules::Worker;

/// Asked by a processor between taking a packet and deciding on it, by the interface of the packet's
/// link and its number there. Where it answers false the packet stays in hand, and it is asked again.
pub trait Gate {
    ghost use Rattle.std.specs.Prelude.{Bool, ℕ};
    ghost use Rattle.router_rules.specs.declared.worker.Worker.{Worker as Named};

    /// What it may answer.
    ghost answers: { Self → Named → ℕ → ℕ → Bool → Type 0 };

    fn admits(&self, worker: Worker, link: u16, number: u64) -> bool
        ensures { answers self.now worker link number result };
}
