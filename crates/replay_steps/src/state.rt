//! The state of the pipeline at one moment, and one step of it.

ghost use Rattle.std.specs.Prelude.{◌≡◌, ◌≤◌, IfOk, length, ◌↔◌, Some, None, OnOk, OnErr, IsErrOf};
ghost use Rattle.replay_laws.specs.Next.{next};
ghost use Rattle.replay_laws.specs.Start.{first_world};
ghost use Rattle.router_rules.specs.Rules.{rules};
ghost use Rattle.replay_state.specs.Arrivals.{sources_from};
ghost use Rattle.replay_steps.specs.Step.{step_in};

use crate::step::{Step, StepFault};
use process_packet::{Arrival, Config, NoMemory};
use replay_places::{QueueIndex, WorkerIndex, seat_count};
use replay_state::{Fates, Hands, Looks, Pipe, Pipes, Sent};
use router_rules::{link_count, link_index};
use std::alloc::{AllocError, Global};
use std::marker::Model;

/// The arrivals of each link, none of them received.
pub fn sources(alloc: Global, arrivals: Vec<Vec<Arrival>>) -> Result<Vec<Pipe>, NoMemory>
    requires few { length arrivals.items ≤ 33 }
    ensures { IfOk result (λ pipes. pipes.items ≡ sources_from 0 arrivals.items) }
{
    let mut pipes = Vec::new(alloc);
    for of_link in arrivals {
        let pipe = Pipe::of_arrivals(alloc, pipes.len() as u16, of_link)?;
        if pipes.push(pipe).is_err() {
            return Err(NoMemory);
        }
    }
    Ok(pipes)
}

/// Hands, pipes and all that ended.
pub struct State {
    pub hands: Hands,
    pub pipes: Pipes,
    pub looks: Looks,
    pub fates: Fates,
    pub sent: Sent,
}

impl Model for State {
    ghost use Rattle.replay_laws.specs.World.{World};
    ghost use Rattle.router_rules.specs.Rules.{kinds};

    ghost Value = { World kinds };

    ghost view = { λ s. record { hands = s.hands; pipes = s.pipes; looks = s.looks; fates = s.fates; sent = s.sent } };
}

impl Drop for State {
    fn drop(self) {
        let State {
            hands: _,
            pipes: _,
            looks: _,
            fates: _,
            sent: _,
        } = self;
    }
}

impl State {
    /// Before the first step. Each source has what arrives on its link.
    pub fn new(alloc: Global, config: &Config, sources: Vec<Pipe>) -> Result<State, AllocError>
        ensures { IfOk result (λ state. state ≡ first_world (rules config.now) config.now.capacity sources.items) }
    {
        let links = link_count(config);
        let hands = Hands::new(alloc, seat_count(config))?;
        let pipes = Pipes::new(
            alloc,
            sources,
            usize::from(config.processors) + 1 + 2 * links,
            config.capacity as usize,
        )?;
        let looks = Looks::new(alloc, links)?;
        let sent = Sent::new(alloc, links)?;
        Ok(State {
            hands,
            pipes,
            looks,
            fates: Fates::new(alloc),
            sent,
        })
    }
}

impl State {
    /// Makes a step, if it is possible.
    pub fn step(&mut self, alloc: Global, config: &Config, step: Step) -> Result<(), StepFault>
        ensures ok { OnOk result (next (rules config.now) self.old (step_in config.now step) ≡ Some self.new) }
        ensures not_now { IsErrOf result StepFault.NotNow ↔ (next (rules config.now) self.old (step_in config.now step) ≡ None) }
        ensures err { OnErr result (self.new ≡ self.old) }
    {
        match step {
            Step::Receive(id) => self.receive(config, link_index(config, id)),
            Step::NoBuffer(id) => self.no_buffer(config, link_index(config, id)),
            Step::Offer(worker) => self.offer(config, WorkerIndex::named(config, worker)),
            Step::Refuse(worker) => self.refuse(config, WorkerIndex::named(config, worker)),
            Step::Take(queue) => self.take(config, QueueIndex::named(config, queue)),
            Step::Look(id) => self.look(config, link_index(config, id)),
            Step::Route(i) => self.route(config, i),
            Step::Answer => self.answer(alloc, config),
            Step::Lack(worker) => self.lack(config, WorkerIndex::named(config, worker)),
            Step::CloseMark(queue) => self.close_mark(config, QueueIndex::named(config, queue)),
            Step::EndMark(worker, queue) => self.end_mark(
                config,
                WorkerIndex::named(config, worker),
                QueueIndex::named(config, queue),
            ),
            Step::Send(id, ok) => self.send(config, link_index(config, id), ok),
            Step::Sweep(queue) => self.sweep(config, QueueIndex::named(config, queue)),
        }
    }
}
