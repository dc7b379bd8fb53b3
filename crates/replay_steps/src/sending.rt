//! What a forwarder does besides taking.

ghost use Rattle.std.specs.Prelude.{◌≡◌, ◌↔◌, Some, None, OnOk, OnErr, IsErrOf};
ghost use Rattle.replay_laws.specs.Next.{next};
ghost use Rattle.replay_laws.specs.Step.{Step};
ghost use Rattle.replay_places.specs.WorkerIndex.{queue_of};
ghost use Rattle.router_rules.specs.Rules.{rules};

use crate::state::State;
use crate::step::StepFault;
use process_packet::Config;
use replay_places::{QueueIndex, WorkerIndex};
use replay_state::{Cause, Hand, Item};
use router_rules::link_count;

impl State {
    /// The forwarder of a link with two bands sees its high pipe empty.
    pub(crate) fn look(&mut self, config: &Config, link: u16) -> Result<(), StepFault>
        ensures ok { OnOk result (next (rules config.now) self.old (Step.Look link) ≡ Some self.new) }
        ensures not_now { IsErrOf result StepFault.NotNow ↔ (next (rules config.now) self.old (Step.Look link) ≡ None) }
        ensures err { OnErr result (self.new ≡ self.old) }
    {
        let high = QueueIndex::High(link);
        if !high.is_there(config) {
            return Err(StepFault::NotNow);
        }
        let seat = WorkerIndex::Forwarder(link).seat(config);
        match self.hands.get(seat) {
            None => {}
            Some(Hand::Got(_) | Hand::Owes(_)) => return Err(StepFault::NotNow),
        }
        if let Some(_) = self.pipes.first(high.place(config)) {
            return Err(StepFault::NotNow);
        }
        self.looks.set(link, true);
        Ok(())
    }

    /// A forwarder hands what it holds to its device, which takes it or fails.
    pub(crate) fn send(&mut self, config: &Config, link: u16, ok: bool) -> Result<(), StepFault>
        ensures ok { OnOk result (next (rules config.now) self.old (Step.Send link ok) ≡ Some self.new) }
        ensures not_now { IsErrOf result StepFault.NotNow ↔ (next (rules config.now) self.old (Step.Send link ok) ≡ None) }
        ensures err { OnErr result (self.new ≡ self.old) }
    {
        if usize::from(link) >= link_count(config) {
            return Err(StepFault::NotNow);
        }
        let seat = WorkerIndex::Forwarder(link).seat(config);
        let Some(Hand::Got(item)) = self.hands.get(seat) else {
            return Err(StepFault::NotNow);
        };
        let Item::Out(out) = item else {
            return Err(StepFault::NotNow);
        };
        if ok {
            let copy = out.try_clone()?;
            self.sent.push(usize::from(link), copy)?;
        } else {
            self.fates.note(item, Cause::SendFailed)?;
        }
        self.hands.set(seat, None);
        Ok(())
    }

    /// A forwarder takes the front after a closing mark, and drops it.
    pub(crate) fn sweep(
        &mut self,
        config: &Config,
        queue_index: QueueIndex,
    ) -> Result<(), StepFault>
        ensures ok { OnOk result (next (rules config.now) self.old (Step.Sweep (queue_of queue_index)) ≡ Some self.new) }
        ensures not_now { IsErrOf result StepFault.NotNow ↔ (next (rules config.now) self.old (Step.Sweep (queue_of queue_index)) ≡ None) }
        ensures err { OnErr result (self.new ≡ self.old) }
    {
        if !queue_index.is_there(config)
            || !queue_index.is_out()
            || !self.may_take(config, queue_index)
        {
            return Err(StepFault::NotNow);
        }
        let place = queue_index.place(config);
        let seat = queue_index.consumer().seat(config);
        if !self.pipes.is_shut(place) {
            return Err(StepFault::NotNow);
        }
        match self.hands.get(seat) {
            None => {}
            Some(Hand::Got(_) | Hand::Owes(_)) => return Err(StepFault::NotNow),
        }
        let Some(first) = self.pipes.first(place) else {
            return Err(StepFault::NotNow);
        };
        self.fates.note(first, Cause::Closed)?;
        self.looks.use_up(queue_index);
        self.pipes.advance(place);
        self.hands.set(seat, None);
        Ok(())
    }
}
