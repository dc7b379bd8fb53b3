//! A sink over a list.

ghost use Rattle.std.specs.Prelude.{◌≡◌, ◌+◌, ◌-◌, ◌^◌, ◌<◌, ◌++◌, ◌∷◌, [], not, Some, None, IfSome, is_ok, if◌then◌else◌, map, option_map};
ghost use Rattle.worker_laws.specs.Forwards.{AddsTo};
ghost use Rattle.worker_parts.specs.ListSink.{Notes, Sends, called, failing, is_among, told_in};
ghost use Rattle.worker_parts.specs.Told.{telling};

use crate::sink::{Sink, SinkFault};
use router_rules::Outgoing;
use std::alloc::Global;
use std::marker::Model;

/// What a sink was handed, and whether it took it.
#[derive(Drop)]
pub struct Sent {
    pub out: Outgoing,
    pub bytes: Vec<u8>,
    pub took: bool,
}

/// Keeps what it is handed, and fails at the calls of some numbers, from 1 on. Where it can't grow it
/// fails and tells no more. Contracts see these numbers, how often it was called, what it tells and how
/// often it failed.
pub struct ListSink {
    alloc: Global,
    fails: Vec<u64>,
    // At the greatest number it counts no more.
    calls: u64,
    list: Option<Vec<Sent>>,
    failed: u64,
}

impl Model for ListSink {
    ghost use Rattle.std.specs.Prelude.{map, option_map};
    ghost use Rattle.worker_parts.specs.ListSink.{Kept, told_in};

    ghost Value = { Kept };

    ghost view = { λ s. record { fails = s.fails.items; calls = s.calls; told = option_map (λ l. map told_in l.items) s.list; failed = s.failed } };
}

impl Drop for ListSink {
    fn drop(self) {
        let ListSink {
            alloc: _,
            fails: _,
            calls: _,
            list: _,
            failed: _,
        } = self;
    }
}

// One entry more; None where there is no memory for it.
fn noted(
    alloc: Global,
    list: Vec<Sent>,
    out: &Outgoing,
    bytes: &[u8],
    took: bool,
) -> Option<Vec<Sent>>
    ensures { IfSome result (λ l. map told_in l.items ≡ map told_in list.items ++ telling out.now bytes.now took ∷ []) }
{
    let mut list = list;
    let bytes = Vec::from_slice(alloc, bytes).ok()?;
    let entry = Sent {
        out: *out,
        bytes,
        took,
    };
    list.push(entry).ok()?;
    Some(list)
}

impl ListSink {
    /// Fails at the calls of these numbers, from 1 on.
    pub fn new(alloc: Global, fails: Vec<u64>) -> ListSink
        ensures { result ≡ record { fails = fails.items; calls = 0; told = Some []; failed = 0 } }
    {
        ListSink {
            alloc,
            fails,
            calls: 0,
            list: Some(Vec::new(alloc)),
            failed: 0,
        }
    }

    /// All that it was handed, in order; none where it couldn't grow once.
    pub fn told(&self) -> Option<&[Sent]>
        ensures { option_map (λ l. map told_in l.now) result ≡ self.now.told }
    {
        match &self.list {
            Some(list) => Some(list.as_slice()),
            None => None,
        }
    }

    // Counts a call. Whether it is none at which it fails.
    fn takes_next(&mut self) -> bool
        ensures called { self.new ≡ called self.new.calls self.old }
        ensures takes { result ≡ not (is_among self.new.calls self.old.fails) }
    {
        self.calls = self.calls.saturating_add(1);
        !self.fails.contains(&self.calls)
    }

    // Notes a call. Whether no growth was refused.
    fn note(&mut self, out: &Outgoing, bytes: &[u8], took: bool) -> bool
        ensures { Notes result (telling out.now bytes.now took) self.old self.new }
    {
        let Some(list) = self.list.take() else {
            return true;
        };
        match noted(self.alloc, list, out, bytes, took) {
            Some(list) => {
                self.list = Some(list);
                true
            }
            None => false,
        }
    }

    fn fail(&mut self) -> SinkFault
        requires { self.old.failed < 2 ^ 64 - 1 }
        ensures { self.new ≡ failing self.old }
    {
        self.failed += 1;
        SinkFault
    }
}

impl Sink for ListSink {
    ghost use Rattle.std.specs.Prelude.{◌≡◌};
    ghost use Rattle.std.proofs.Common.{refl, ◌∙◌};

    ghost told = { λ s. s.told };

    ghost failed = { λ s. s.failed };

    ghost same = { λ a b. b.fails ≡ a.fails };

    ghost same_self = { λ x. refl };

    ghost same_then = { λ x y z p q. q ∙ p };

    fn send(&mut self, out: &Outgoing, bytes: &[u8]) -> Result<(), SinkFault>
        requires { self.old.failed < 2 ^ 64 - 1 }
        ensures failed { self.new.failed ≡ self.old.failed + (if is_ok result then 0 else 1) }
        ensures told { AddsTo self.old.told (telling out.now bytes.now (is_ok result)) self.new.told }
        ensures sends { Sends (is_ok result) self.old self.new }
        ensures device { self.new.fails ≡ self.old.fails }
    {
        let took = self.takes_next();
        let kept = self.note(out, bytes, took);
        if !took {
            return Err(self.fail());
        }
        if !kept {
            return Err(self.fail());
        }
        Ok(())
    }

    fn failures(&self) -> u64 {
        self.failed
    }
}
