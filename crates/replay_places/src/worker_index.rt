//! Workers and pipes, with links by their numbers from 0 on.

ghost use Rattle.std.specs.Prelude.{◌≡◌};
ghost use Rattle.replay_laws.specs.Next.{feeds, is_out};
ghost use Rattle.replay_laws.specs.Worker.{consumer, same_worker};
ghost use Rattle.replay_laws.specs.World.{has_queue, has_worker, pipe_of, seat_of};
ghost use Rattle.replay_places.specs.Producers.{producer_count, producer_of};
ghost use Rattle.router_rules.specs.Rules.{rules};
ghost use Rattle.replay_places.specs.WorkerIndex.{queue_of, worker_of};
ghost use Rattle.replay_places.specs.Worker.{queue_in, worker_in};

use crate::places::{link_pipe, seat_count, slow_seat};
use crate::queue::Queue;
use process_packet::Config;
use router_rules::{Worker, has_two_bands, link_count, link_index};

/// A worker, its link by the index among the links, from 0 on. `Worker` has the link by its
/// interface.
#[derive(Clone, Copy, PartialEq, Eq)]
pub enum WorkerIndex {
    Receiver(u16),
    Processor(u8),
    Slow,
    Forwarder(u16),
    Controller,
}

/// A pipe, its link by the index among the links, from 0 on. `Queue` has the link by its interface.
#[derive(Clone, Copy)]
pub enum QueueIndex {
    Of(WorkerIndex),
    High(u16),
}

impl WorkerIndex {
    /// The worker that a step names.
    pub fn named(config: &Config, worker: Worker) -> WorkerIndex
        ensures { worker_of result ≡ worker_in config.now worker }
    {
        match worker {
            Worker::Receiver(id) => WorkerIndex::Receiver(link_index(config, id)),
            Worker::Processor(i) => WorkerIndex::Processor(i),
            Worker::Slow => WorkerIndex::Slow,
            Worker::Forwarder(id) => WorkerIndex::Forwarder(link_index(config, id)),
            Worker::Controller => WorkerIndex::Controller,
        }
    }

    /// Whether the configuration has such a link or processor.
    pub fn is_there(self, config: &Config) -> bool
        ensures { result ≡ has_worker (rules config.now) (worker_of self) }
    {
        match self {
            WorkerIndex::Receiver(link) | WorkerIndex::Forwarder(link) => {
                usize::from(link) < link_count(config)
            }
            WorkerIndex::Processor(i) => i < config.processors,
            WorkerIndex::Slow | WorkerIndex::Controller => true,
        }
    }

    /// The place of its hand in the list of hands; for the controller, which has no hand, the
    /// length of that list.
    pub fn seat(self, config: &Config) -> usize
        ensures { result ≡ seat_of (rules config.now) (worker_of self) }
    {
        match self {
            WorkerIndex::Receiver(link) => usize::from(link),
            WorkerIndex::Processor(i) => link_count(config) + usize::from(i),
            WorkerIndex::Slow => slow_seat(config),
            WorkerIndex::Forwarder(link) => slow_seat(config) + 1 + usize::from(link),
            WorkerIndex::Controller => seat_count(config),
        }
    }

    /// Whether both are the same worker.
    pub fn is(self, other: WorkerIndex) -> bool
        ensures { result ≡ same_worker (worker_of self) (worker_of other) }
    {
        match (self, other) {
            (WorkerIndex::Receiver(a), WorkerIndex::Receiver(b)) => a == b,
            (WorkerIndex::Processor(i), WorkerIndex::Processor(j)) => i == j,
            (WorkerIndex::Forwarder(l), WorkerIndex::Forwarder(k)) => l == k,
            (WorkerIndex::Slow, WorkerIndex::Slow) => true,
            (WorkerIndex::Controller, WorkerIndex::Controller) => true,
            _ => false,
        }
    }

    /// Whether it pushes to the pipe.
    pub fn feeds(self, queue_index: QueueIndex) -> bool
        ensures { result ≡ feeds (worker_of self) (queue_of queue_index) }
    {
        match self {
            WorkerIndex::Receiver(_) => queue_index.is_processors(),
            WorkerIndex::Processor(_) => queue_index.is_slow() || queue_index.is_out(),
            WorkerIndex::Slow | WorkerIndex::Controller => queue_index.is_out(),
            WorkerIndex::Forwarder(_) => false,
        }
    }

    /// The number under which it pushes to the pipes that it feeds; a forwarder feeds none.
    pub fn producer(self, config: &Config) -> Option<usize>
        ensures { result ≡ producer_of (rules config.now) (worker_of self) }
    {
        match self {
            WorkerIndex::Receiver(link) => Some(usize::from(link)),
            WorkerIndex::Processor(i) => Some(usize::from(i)),
            WorkerIndex::Slow => Some(usize::from(config.processors)),
            WorkerIndex::Forwarder(_) => None,
            WorkerIndex::Controller => Some(usize::from(config.processors) + 1),
        }
    }
}

impl QueueIndex {
    ghost use Rattle.replay_laws.specs.Next.{is_processor, is_slow};

    /// The pipe that a step names.
    pub fn named(config: &Config, queue: Queue) -> QueueIndex
        ensures { queue_of result ≡ queue_in config.now queue }
    {
        match queue {
            Queue::Of(worker) => QueueIndex::Of(WorkerIndex::named(config, worker)),
            Queue::High(id) => QueueIndex::High(link_index(config, id)),
        }
    }

    /// Whether workers push to it and take from it.
    pub fn is_there(self, config: &Config) -> bool
        ensures { result ≡ has_queue (rules config.now) (queue_of self) }
    {
        match self {
            QueueIndex::Of(WorkerIndex::Processor(i)) => i < config.processors,
            QueueIndex::Of(WorkerIndex::Slow) => true,
            QueueIndex::Of(WorkerIndex::Forwarder(link)) => usize::from(link) < link_count(config),
            QueueIndex::Of(WorkerIndex::Receiver(_) | WorkerIndex::Controller) => false,
            QueueIndex::High(link) => {
                usize::from(link) < link_count(config) && has_two_bands(config, link)
            }
        }
    }

    /// Its place in the list of pipes, from 0 on. A link's list of arrivals counts as the pipe of
    /// its receiver.
    pub fn place(self, config: &Config) -> usize
        ensures { result ≡ pipe_of (rules config.now) (queue_of self) }
    {
        match self {
            QueueIndex::Of(WorkerIndex::Receiver(link)) => usize::from(link),
            QueueIndex::Of(WorkerIndex::Processor(i)) => link_count(config) + usize::from(i),
            QueueIndex::Of(WorkerIndex::Slow) => slow_seat(config),
            QueueIndex::Of(WorkerIndex::Forwarder(link)) => link_pipe(config, false, link),
            QueueIndex::Of(WorkerIndex::Controller) => slow_seat(config)
                + 1
                + 2 * link_count(config),
            QueueIndex::High(link) => link_pipe(config, true, link),
        }
    }

    /// The worker that takes from it.
    pub fn consumer(self) -> WorkerIndex
        ensures { worker_of result ≡ consumer (queue_of self) }
    {
        match self {
            QueueIndex::Of(worker) => worker,
            QueueIndex::High(link) => WorkerIndex::Forwarder(link),
        }
    }

    /// How many workers push to it; 0 for a receiver's list of arrivals.
    pub fn producers(self, config: &Config) -> usize
        ensures { result ≡ producer_count (rules config.now) (queue_of self) }
    {
        match self {
            QueueIndex::Of(WorkerIndex::Processor(_)) => link_count(config),
            QueueIndex::Of(WorkerIndex::Slow) => usize::from(config.processors),
            QueueIndex::Of(WorkerIndex::Forwarder(_)) | QueueIndex::High(_) => {
                usize::from(config.processors) + 2
            }
            QueueIndex::Of(WorkerIndex::Receiver(_) | WorkerIndex::Controller) => 0,
        }
    }

    /// Whether a forwarder takes from it.
    pub fn is_out(self) -> bool
        ensures { result ≡ is_out (queue_of self) }
    {
        matches!(
            self,
            QueueIndex::Of(WorkerIndex::Forwarder(_)) | QueueIndex::High(_)
        )
    }

    /// Whether a processor takes from it.
    fn is_processors(self) -> bool
        ensures { result ≡ is_processor (queue_of self) }
    {
        matches!(self, QueueIndex::Of(WorkerIndex::Processor(_)))
    }

    /// Whether the slow path takes from it.
    fn is_slow(self) -> bool
        ensures { result ≡ is_slow (queue_of self) }
    {
        matches!(self, QueueIndex::Of(WorkerIndex::Slow))
    }
}
