//! A gate that is never shut.

use router_rules::Worker;
use worker_parts::Gate;

/// Admits all.
#[derive(Drop)]
pub struct Open;

impl Gate for Open {
    ghost use Rattle.std.specs.Prelude.{◌≡◌, true};

    ghost answers = { λ g worker link number admitted. admitted ≡ true };

    fn admits(&self, worker: Worker, link: u16, number: u64) -> bool {
        let _ = (worker, link, number);
        true
    }
}
