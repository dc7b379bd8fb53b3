//! The pipeline over any list of steps, and its report.

ghost use Rattle.std.specs.Prelude.{◌≡◌, ◌<◌, ◌↔◌, length, take, Some, None, OnOk, OnErr, IsErrOf, IfOk, IfErr, ◌+◌, sum};
ghost use Rattle.pipe_model.specs.Begun.{AreArrivals, begun};
ghost use Rattle.pipe_model.specs.Headline.{IsHeadline, IsReached, IsWayGood};
ghost use Rattle.pipe_model.specs.Pipeline.{ran, skipped, stepped};
ghost use Rattle.pipe_model.specs.Shown.{place_of, sent_by, totals_of, waiting_of};

use crate::counting::{counts, in_hands, in_pipes};
use crate::place::{Place, find};
use process_packet::{Arrival, Config, NoMemory, Totals};
use replay_state::Bytes;
use replay_steps::{State, Step, StepFault, sources};
use router_rules::{Outgoing, causes_are_apart, link_count, link_index, rules_are_lawful};
use std::alloc::Global;
use std::marker::Model;
use thiserror::Error;

/// A pipeline: a configuration, and what some steps led to.
pub struct World {
    pub(crate) config: Config,
    pub(crate) state: State,
}

impl Model for World {
    ghost use Rattle.pipe_model.specs.Headline.{IsReached};
    ghost use Rattle.pipe_model.specs.Pipeline.{Pipeline};

    ghost Value = { Pipeline };

    ghost view = { λ w. record { config = w.config; world = w.state } };

    ghost invariant = { λ w. IsReached w.config w.state };
}

impl Drop for World {
    fn drop(self) {
        let World {
            config: _,
            state: _,
        } = self;
    }
}

/// No memory was left for the step with this index. Those before it were made.
#[derive(Clone, Copy, Debug, PartialEq, Eq, Error)]
#[error("no memory for step {0}")]
pub struct NoMemoryAt(pub usize);

impl World {
    /// The pipeline before its first step. What arrives is in a list for each link, the
    /// internal network first and then the others in ascending order of their interfaces; each list
    /// is numbered from 1. At `NoMemory` no memory was left, and both arguments are dropped.
    pub fn new(
        alloc: Global,
        config: Config,
        arrivals: Vec<Vec<Arrival>>,
    ) -> Result<World, NoMemory>
        requires { AreArrivals config arrivals.items }
        ensures { IfOk result (λ w. w ≡ begun config arrivals.items) }
    {
        let sources = sources(alloc, arrivals)?;
        match State::new(alloc, &config, sources) {
            Ok(state) => Ok(World { config, state }),
            Err(_) => Err(NoMemory),
        }
    }

    /// The configuration of its router.
    pub fn config(&self) -> &Config
        ensures { result.now ≡ self.now.config }
    {
        &self.config
    }

    /// What holds of it by whatever steps it was reached.
    pub fn headline(&self)
        ensures headline { IsHeadline self.now.config self.now.world }
        ensures reached { IsReached self.now.config self.now.world }
        ensures way { (r : IsReached self.now.config self.now.world) → IsWayGood self.now.config self.now.world r }
    {
        let _ = &self.config;
        rules_are_lawful();
        causes_are_apart();
    }

    /// Makes a step. At `NotNow` the worker can't do it now, or it names what isn't there; at
    /// `NoMemory` no memory was left. Either way the world is unchanged.
    pub fn step(&mut self, alloc: Global, step: Step) -> Result<(), StepFault>
        ensures ok { OnOk result (stepped self.old step ≡ Some self.new) }
        ensures not_now { IsErrOf result StepFault.NotNow ↔ (stepped self.old step ≡ None) }
        ensures err { OnErr result (self.new ≡ self.old) }
    {
        self.state.step(alloc, &self.config, step)?;
        Ok(())
    }

    /// Makes the steps in their order, and gives the indices of those that were not possible, which
    /// are skipped. At `NoMemoryAt(k)` no memory was left for step `k`: the steps before it were
    /// made, and no other.
    pub fn run(&mut self, alloc: Global, steps: &[Step]) -> Result<Vec<usize>, NoMemoryAt>
        ensures ok { OnOk result (self.new ≡ ran self.old steps.now) }
        ensures skipped { IfOk result (λ places. places.items ≡ skipped self.old steps.now) }
        ensures err { IfErr result (λ e. (e.0 < length steps.now) × (self.new ≡ ran self.old (take e.0 steps.now))) }
        ensures headline { IsHeadline self.new.config self.new.world }
        ensures reached { IsReached self.new.config self.new.world }
        ensures way { (r : IsReached self.new.config self.new.world) → IsWayGood self.new.config self.new.world r }
    {
        let mut places = Vec::new(alloc);
        for (i, step) in steps.iter().enumerate() {
            match self.step(alloc, *step) {
                Ok(()) => {}
                Err(StepFault::NotNow) => {
                    if places.push(i).is_err() {
                        self.headline();
                        return Err(NoMemoryAt(i));
                    }
                }
                Err(StepFault::NoMemory) => {
                    self.headline();
                    return Err(NoMemoryAt(i));
                }
            }
        }
        self.headline();
        Ok(places)
    }
}

impl World {
    /// What was sent by the link with this interface, in order; nothing where there is none.
    pub fn sent(&self, link: u16) -> &[(Outgoing, Bytes)]
        ensures { result.now ≡ sent_by self.now link }
    {
        self.state
            .sent
            .on(usize::from(link_index(&self.config, link)))
    }

    /// The place of the packet with this number that came by the link with this interface; `None` where
    /// it isn't received.
    pub fn place(&self, link: u16, number: u64) -> Option<Place>
        ensures { result ≡ place_of self.now link number }
    {
        find(
            &self.config,
            &self.state,
            link_index(&self.config, link),
            number,
        )
    }

    /// How many packets were received, and what became of them. They add up.
    pub fn totals(&self) -> Totals
        ensures counts { result ≡ totals_of self.now }
        ensures sum { result.received ≡ result.sent + result.answered + waiting_of self.now + sum result.dropped }
    {
        self.headline();
        counts(&self.config, &self.state)
    }

    /// How many packets are under way: in a hand or in a pipe.
    pub fn waiting(&self) -> u128
        ensures { result ≡ waiting_of self.now }
    {
        let pipes = self.state.pipes.after(link_count(&self.config));
        let _count = pipes.len();
        in_hands(&self.state.hands) as u128 + in_pipes(pipes)
    }
}
