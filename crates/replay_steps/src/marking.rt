//! Marks: what closes a link, and the last that a worker pushes.

ghost use Rattle.std.specs.Prelude.{◌≡◌, ◌↔◌, Some, None, OnOk, OnErr, IsErrOf};
ghost use Rattle.replay_laws.specs.Next.{next, is_over};
ghost use Rattle.replay_laws.specs.Step.{Step};
ghost use Rattle.replay_places.specs.WorkerIndex.{queue_of, worker_of};
ghost use Rattle.router_rules.specs.Rules.{rules};

use crate::state::State;
use crate::step::StepFault;
use process_packet::Config;
use replay_places::{QueueIndex, WorkerIndex};
use replay_state::Item;
use router_rules::link_count;

impl State {
    /// The controller pushes a closing mark.
    pub(crate) fn close_mark(
        &mut self,
        config: &Config,
        queue_index: QueueIndex,
    ) -> Result<(), StepFault>
        ensures ok { OnOk result (next (rules config.now) self.old (Step.Close (queue_of queue_index)) ≡ Some self.new) }
        ensures not_now { IsErrOf result StepFault.NotNow ↔ (next (rules config.now) self.old (Step.Close (queue_of queue_index)) ≡ None) }
        ensures err { OnErr result (self.new ≡ self.old) }
    {
        if !queue_index.is_there(config) || !queue_index.is_out() {
            return Err(StepFault::NotNow);
        }
        let place = queue_index.place(config);
        if self.pipes.is_marked(place) || !self.pipes.has_room(place) {
            return Err(StepFault::NotNow);
        }
        if self.pipes.has_end_of(place, WorkerIndex::Controller) {
            return Err(StepFault::NotNow);
        }
        self.pipes
            .push(place, WorkerIndex::Controller, Item::Close)?;
        Ok(())
    }

    /// Whether a worker will push nothing but its end marks: a receiver has no arrival left, a processor
    /// took the end marks of all receivers, the slow path those of all processors.
    fn is_over(&self, config: &Config, worker: WorkerIndex) -> bool
        ensures { result ≡ is_over (rules config.now) self.now (worker_of worker) }
    {
        match worker {
            WorkerIndex::Receiver(link) => match self.pipes.first(usize::from(link)) {
                None => true,
                Some(_) => false,
            },
            WorkerIndex::Processor(_) => self.pipes.ends_taken(worker.seat(config))
                == link_count(config),
            WorkerIndex::Slow => self.pipes.ends_taken(worker.seat(config))
                == usize::from(config.processors),
            WorkerIndex::Forwarder(_) => false,
            WorkerIndex::Controller => true,
        }
    }

    /// A worker pushes its end mark.
    pub(crate) fn end_mark(
        &mut self,
        config: &Config,
        worker: WorkerIndex,
        queue_index: QueueIndex,
    ) -> Result<(), StepFault>
        ensures ok { OnOk result (next (rules config.now) self.old (Step.End (worker_of worker) (queue_of queue_index)) ≡ Some self.new) }
        ensures not_now { IsErrOf result StepFault.NotNow ↔ (next (rules config.now) self.old (Step.End (worker_of worker) (queue_of queue_index)) ≡ None) }
        ensures err { OnErr result (self.new ≡ self.old) }
    {
        if !worker.is_there(config) || !queue_index.is_there(config) || !worker.feeds(queue_index) {
            return Err(StepFault::NotNow);
        }
        if !self.is_over(config, worker) || !self.hands.is_free(worker.seat(config)) {
            return Err(StepFault::NotNow);
        }
        let place = queue_index.place(config);
        if !self.pipes.has_room(place) || self.pipes.has_end_of(place, worker) {
            return Err(StepFault::NotNow);
        }
        self.pipes.push(place, worker, Item::End)?;
        Ok(())
    }
}
