//! All pipes, by their places.

ghost use Rattle.std.specs.Prelude.{◌≡◌, ◌++◌, Some, None, MatchOption, IsSome, IfOk, is_ok, if◌then◌else◌, replicate, slice_set};
ghost use Rattle.replay_laws.specs.Marks.{ends};
ghost use Rattle.replay_laws.specs.Pipe.{empty_pipe, front, gone, has_end_of, has_room, is_marked, is_shut, one_taken, pushed, refusal_of, refused};
ghost use Rattle.replay_places.specs.WorkerIndex.{worker_of};
ghost use Rattle.replay_state.specs.Items.{item_in};
ghost use Rattle.replay_state.specs.Kept.{pipe_at};

use crate::item::Item;
use crate::pipe::Pipe;
use replay_places::WorkerIndex;
use std::alloc::{AllocError, Global};
use std::marker::Model;

/// All pipes, by their places. A pipe that isn't there has no room and holds nothing, and nothing changes
/// it.
pub struct Pipes {
    items: Vec<Pipe>,
}

impl Model for Pipes {
    ghost use Rattle.std.specs.Prelude.{List};
    ghost use Rattle.replay_laws.specs.Pipe.{Pipe};
    ghost use Rattle.router_rules.specs.Rules.{kinds};

    ghost Value = { List (Pipe kinds) };

    ghost view = { λ p. p.items.items };
}

impl Drop for Pipes {
    fn drop(self) {
        let Pipes { items: _ } = self;
    }
}

impl Pipes {
    /// The sources, and after them a number of empty pipes.
    pub fn new(
        alloc: Global,
        sources: Vec<Pipe>,
        count: usize,
        capacity: usize,
    ) -> Result<Pipes, AllocError>
        ensures { IfOk result (λ pipes. pipes ≡ sources.items ++ replicate count (empty_pipe capacity)) }
    {
        let mut items = sources;
        for i in 0..count {
            items.push(Pipe::new(alloc, capacity))?;
        }
        Ok(Pipes { items })
    }

    /// Whether one more item may be pushed.
    pub fn has_room(&self, at: usize) -> bool
        ensures { result ≡ has_room (pipe_at self.now at) }
    {
        match self.items.get(at) {
            None => false,
            Some(pipe) => pipe.has_room(),
        }
    }

    /// Whether a closing mark was taken.
    pub fn is_shut(&self, at: usize) -> bool
        ensures { result ≡ is_shut (pipe_at self.now at) }
    {
        match self.items.get(at) {
            None => false,
            Some(pipe) => pipe.is_shut(),
        }
    }

    /// Whether a closing mark was pushed.
    pub fn is_marked(&self, at: usize) -> bool
        ensures { result ≡ is_marked (pipe_at self.now at) }
    {
        match self.items.get(at) {
            None => false,
            Some(pipe) => pipe.is_marked(),
        }
    }

    /// How many end marks were taken.
    pub fn ends_taken(&self, at: usize) -> usize
        ensures { result ≡ ends (gone (pipe_at self.now at)) }
    {
        match self.items.get(at) {
            None => 0,
            Some(pipe) => pipe.ends_taken(),
        }
    }

    /// Whether the worker has pushed its end mark.
    pub fn has_end_of(&self, at: usize, worker: WorkerIndex) -> bool
        ensures { result ≡ has_end_of (worker_of worker) (pipe_at self.now at) }
    {
        match self.items.get(at) {
            None => false,
            Some(pipe) => pipe.has_end_of(worker),
        }
    }

    /// What would be taken next.
    pub fn first(&self, at: usize) -> Option<&Item>
        ensures { MatchOption result (front (pipe_at self.now at) ≡ None) (λ x. front (pipe_at self.now at) ≡ Some (item_in x.now)) }
    {
        match self.items.get(at) {
            None => None,
            Some(pipe) => pipe.first(),
        }
    }

    /// Pushes an item to a pipe. At `Err` no memory was left, and nothing changes.
    pub fn push(&mut self, at: usize, from: WorkerIndex, item: Item) -> Result<(), AllocError>
        ensures { self.new ≡ (if is_ok result then slice_set self.old at (pushed (pipe_at self.old at) (worker_of from) (item_in item)) else self.old) }
    {
        if at < self.items.len() {
            return self.items[at].push(from, item);
        }
        drop(item);
        Ok(())
    }

    /// Takes the first item that a pipe holds; there has to be one.
    pub fn advance(&mut self, at: usize)
        requires { IsSome (front (pipe_at self.old at)) }
        ensures { self.new ≡ slice_set self.old at (one_taken (pipe_at self.old at)) }
    {
        if at < self.items.len() {
            self.items[at].advance();
        }
    }

    /// Notes that a pipe refused an item. At `Err` no memory was left, and nothing changes.
    pub fn refuse(&mut self, at: usize, item: &Item) -> Result<(), AllocError>
        ensures { self.new ≡ (if is_ok result then slice_set self.old at (refused (pipe_at self.old at) (refusal_of (item_in item.now) (pipe_at self.old at))) else self.old) }
    {
        if at < self.items.len() {
            self.items[at].refuse(item)?;
        }
        Ok(())
    }
}

impl Pipes {
    ghost use Rattle.std.specs.Prelude.{drop, take};

    /// The first `count` of them.
    pub fn up_to(&self, count: usize) -> &[Pipe]
        ensures { result.now ≡ take count self.now }
    {
        if count <= self.items.len() {
            &self.items[..count]
        } else {
            self.items.as_slice()
        }
    }

    /// Those after the first `count`.
    pub fn after(&self, count: usize) -> &[Pipe]
        ensures { result.now ≡ drop count self.now }
    {
        if count <= self.items.len() {
            &self.items[count..]
        } else {
            &[]
        }
    }
}
