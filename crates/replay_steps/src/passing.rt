//! What passes through pipes.

ghost use Rattle.std.specs.Prelude.{◌≡◌, ◌↔◌, Some, None, OnOk, OnErr, IsErrOf};
ghost use Rattle.replay_laws.specs.Next.{may_take, next};
ghost use Rattle.replay_laws.specs.Step.{Step};
ghost use Rattle.replay_places.specs.WorkerIndex.{queue_of, worker_of};
ghost use Rattle.router_rules.specs.Rules.{rules};

use crate::state::State;
use crate::step::StepFault;
use process_packet::Config;
use replay_places::{QueueIndex, WorkerIndex};
use replay_state::{Hand, home};
use router_rules::has_two_bands;

impl State {
    /// What a worker owes is pushed.
    pub(crate) fn offer(&mut self, config: &Config, worker: WorkerIndex) -> Result<(), StepFault>
        ensures ok { OnOk result (next (rules config.now) self.old (Step.Offer (worker_of worker)) ≡ Some self.new) }
        ensures not_now { IsErrOf result StepFault.NotNow ↔ (next (rules config.now) self.old (Step.Offer (worker_of worker)) ≡ None) }
        ensures err { OnErr result (self.new ≡ self.old) }
    {
        if !worker.is_there(config) {
            return Err(StepFault::NotNow);
        }
        let seat = worker.seat(config);
        let Some(Hand::Owes(item)) = self.hands.get(seat) else {
            return Err(StepFault::NotNow);
        };
        let home = home(config, item);
        if !self.pipes.has_room(home) {
            return Err(StepFault::NotNow);
        }
        let copy = item.try_clone()?;
        self.pipes.push(home, worker, copy)?;
        self.hands.set(seat, None);
        Ok(())
    }

    /// What a worker owes meets a full pipe, and is dropped.
    pub(crate) fn refuse(&mut self, config: &Config, worker: WorkerIndex) -> Result<(), StepFault>
        ensures ok { OnOk result (next (rules config.now) self.old (Step.Refuse (worker_of worker)) ≡ Some self.new) }
        ensures not_now { IsErrOf result StepFault.NotNow ↔ (next (rules config.now) self.old (Step.Refuse (worker_of worker)) ≡ None) }
        ensures err { OnErr result (self.new ≡ self.old) }
    {
        if !worker.is_there(config) {
            return Err(StepFault::NotNow);
        }
        let seat = worker.seat(config);
        let Some(Hand::Owes(item)) = self.hands.get(seat) else {
            return Err(StepFault::NotNow);
        };
        let home = home(config, item);
        if self.pipes.has_room(home) {
            return Err(StepFault::NotNow);
        }
        let fates = self.fates.len();
        self.fates.note(item, item.full())?;
        if self.pipes.refuse(home, item).is_err() {
            self.fates.truncate(fates);
            return Err(StepFault::NoMemory);
        }
        self.hands.set(seat, None);
        Ok(())
    }

    /// Whether the lower pipe of a link with two bands may be taken from: its high pipe was seen empty. Any
    /// other pipe may.
    pub(crate) fn may_take(&self, config: &Config, queue_index: QueueIndex) -> bool
        ensures { result ≡ may_take (rules config.now) self.now (queue_of queue_index) }
    {
        match queue_index {
            QueueIndex::Of(WorkerIndex::Forwarder(link)) => {
                !has_two_bands(config, link) || self.looks.get(link)
            }
            _ => true,
        }
    }

    /// The consumer of a pipe takes its front, to work on it or to send it.
    pub(crate) fn take(&mut self, config: &Config, queue_index: QueueIndex) -> Result<(), StepFault>
        ensures ok { OnOk result (next (rules config.now) self.old (Step.Take (queue_of queue_index)) ≡ Some self.new) }
        ensures not_now { IsErrOf result StepFault.NotNow ↔ (next (rules config.now) self.old (Step.Take (queue_of queue_index)) ≡ None) }
        ensures err { OnErr result (self.new ≡ self.old) }
    {
        if !queue_index.is_there(config) || !self.may_take(config, queue_index) {
            return Err(StepFault::NotNow);
        }
        let place = queue_index.place(config);
        let seat = queue_index.consumer().seat(config);
        if self.pipes.is_shut(place) {
            return Err(StepFault::NotNow);
        }
        match self.hands.get(seat) {
            None => {}
            Some(Hand::Got(_) | Hand::Owes(_)) => return Err(StepFault::NotNow),
        }
        let Some(first) = self.pipes.first(place) else {
            return Err(StepFault::NotNow);
        };
        let item = first.try_clone()?;
        self.looks.use_up(queue_index);
        self.pipes.advance(place);
        self.hands.set(seat, item.in_hand());
        Ok(())
    }
}
