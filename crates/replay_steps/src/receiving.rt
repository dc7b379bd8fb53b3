//! What a receiver does.

ghost use Rattle.std.specs.Prelude.{◌≡◌, ◌↔◌, Some, None, OnOk, OnErr, IsErrOf};
ghost use Rattle.replay_laws.specs.Next.{next};
ghost use Rattle.replay_laws.specs.Step.{Step};
ghost use Rattle.router_rules.specs.Rules.{rules};

use crate::state::State;
use crate::step::StepFault;
use process_packet::Config;
use replay_state::{Cause, Hand, Item, Packet};
use router_rules::{inspect, link_count};

impl State {
    /// A receiver takes the next arrival of its link: it drops a faulty one, and owes any other to a processor.
    pub(crate) fn receive(&mut self, config: &Config, link: u16) -> Result<(), StepFault>
        ensures ok { OnOk result (next (rules config.now) self.old (Step.Receive link) ≡ Some self.new) }
        ensures not_now { IsErrOf result StepFault.NotNow ↔ (next (rules config.now) self.old (Step.Receive link) ≡ None) }
        ensures err { OnErr result (self.new ≡ self.old) }
    {
        let seat = usize::from(link);
        if seat >= link_count(config) {
            return Err(StepFault::NotNow);
        }
        match self.hands.get(seat) {
            None => {}
            Some(Hand::Got(_) | Hand::Owes(_)) => return Err(StepFault::NotNow),
        }
        let Some(first) = self.pipes.first(seat) else {
            return Err(StepFault::NotNow);
        };
        let Item::Arrived(came) = first else {
            return Err(StepFault::NotNow);
        };
        if let Some(reason) = inspect(config, came.interface, came.bytes.as_slice()) {
            self.fates.note(first, Cause::Ruled(reason))?;
            self.pipes.advance(seat);
            self.hands.set(seat, None);
        } else {
            let came = came.try_clone()?;
            self.pipes.advance(seat);
            let item = Item::Packet(Packet { came });
            self.hands.set(seat, Some(Hand::Owes(item)));
        }
        Ok(())
    }

    /// A receiver finds no buffer for its next datagram: the one in its hand is dropped.
    pub(crate) fn no_buffer(&mut self, config: &Config, link: u16) -> Result<(), StepFault>
        ensures ok { OnOk result (next (rules config.now) self.old (Step.NoBuffer link) ≡ Some self.new) }
        ensures not_now { IsErrOf result StepFault.NotNow ↔ (next (rules config.now) self.old (Step.NoBuffer link) ≡ None) }
        ensures err { OnErr result (self.new ≡ self.old) }
    {
        let seat = usize::from(link);
        if seat >= link_count(config) {
            return Err(StepFault::NotNow);
        }
        let Some(Hand::Owes(item)) = self.hands.get(seat) else {
            return Err(StepFault::NotNow);
        };
        self.fates.note(item, Cause::NoBuffer)?;
        self.hands.set(seat, None);
        Ok(())
    }
}
