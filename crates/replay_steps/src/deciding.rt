//! What processors and the slow path make of packets.

ghost use Rattle.std.specs.Prelude.{◌≡◌, ◌↔◌, Some, None, OnOk, OnErr, IsErrOf};
ghost use Rattle.replay_laws.specs.Next.{next};
ghost use Rattle.replay_laws.specs.Step.{Step};
ghost use Rattle.replay_places.specs.WorkerIndex.{worker_of};
ghost use Rattle.router_rules.specs.Rules.{rules};

use crate::state::State;
use crate::step::StepFault;
use process_packet::Config;
use replay_places::WorkerIndex;
use replay_state::{Cause, Hand, Item, Outcome, decide, reply};
use std::alloc::Global;

impl State {
    /// A processor decides on the packet in its hand.
    pub(crate) fn route(&mut self, config: &Config, processor: u8) -> Result<(), StepFault>
        ensures ok { OnOk result (next (rules config.now) self.old (Step.Route processor) ≡ Some self.new) }
        ensures not_now { IsErrOf result StepFault.NotNow ↔ (next (rules config.now) self.old (Step.Route processor) ≡ None) }
        ensures err { OnErr result (self.new ≡ self.old) }
    {
        if processor >= config.processors {
            return Err(StepFault::NotNow);
        }
        let seat = WorkerIndex::Processor(processor).seat(config);
        let Some(Hand::Got(item)) = self.hands.get(seat) else {
            return Err(StepFault::NotNow);
        };
        let Item::Packet(packet) = item else {
            return Err(StepFault::NotNow);
        };
        match decide(config, packet)? {
            Outcome::Makes(made) => self.hands.set(seat, Some(Hand::Owes(made))),
            Outcome::Ends(cause) => {
                self.fates.note(item, cause)?;
                self.hands.set(seat, None);
            }
        }
        Ok(())
    }

    /// The slow path answers the problem in its hand.
    pub(crate) fn answer(&mut self, alloc: Global, config: &Config) -> Result<(), StepFault>
        ensures ok { OnOk result (next (rules config.now) self.old (Step.Answer) ≡ Some self.new) }
        ensures not_now { IsErrOf result StepFault.NotNow ↔ (next (rules config.now) self.old (Step.Answer) ≡ None) }
        ensures err { OnErr result (self.new ≡ self.old) }
    {
        let seat = WorkerIndex::Slow.seat(config);
        let Some(Hand::Got(item)) = self.hands.get(seat) else {
            return Err(StepFault::NotNow);
        };
        let Item::Request(request) = item else {
            return Err(StepFault::NotNow);
        };
        match reply(alloc, config, request)? {
            Outcome::Makes(made) => self.hands.set(seat, Some(Hand::Owes(made))),
            Outcome::Ends(cause) => {
                self.fates.note(item, cause)?;
                self.hands.set(seat, None);
            }
        }
        Ok(())
    }

    /// A processor or the slow path has no memory for what it would make.
    pub(crate) fn lack(&mut self, config: &Config, worker: WorkerIndex) -> Result<(), StepFault>
        ensures ok { OnOk result (next (rules config.now) self.old (Step.Lack (worker_of worker)) ≡ Some self.new) }
        ensures not_now { IsErrOf result StepFault.NotNow ↔ (next (rules config.now) self.old (Step.Lack (worker_of worker)) ≡ None) }
        ensures err { OnErr result (self.new ≡ self.old) }
    {
        if !worker.is_there(config) {
            return Err(StepFault::NotNow);
        }
        let seat = worker.seat(config);
        let Some(Hand::Got(item)) = self.hands.get(seat) else {
            return Err(StepFault::NotNow);
        };
        match (worker, item) {
            (WorkerIndex::Processor(_), Item::Packet(_)) | (WorkerIndex::Slow, Item::Request(_)) =>
                {}
            _ => return Err(StepFault::NotNow),
        }
        self.fates.note(item, Cause::NoMemory)?;
        self.hands.set(seat, None);
        Ok(())
    }
}
