//! What a worker does in one step, and why it is not made.

ghost use Rattle.std.specs.Prelude.{◌≡◌};
ghost use Rattle.replay_steps.specs.declared.step.StepFault.TheVariants.{NoMemory};

use replay_places::Queue;
use router_rules::Worker;
use std::alloc::AllocError;
use thiserror::Error;

/// One act of one worker. One that the worker can't do now, or that names what isn't there, isn't
/// possible.
#[derive(Clone, Copy)]
pub enum Step {
    /// The receiver of a link takes its next datagram, and numbers it.
    Receive(u16),
    /// The receiver of a link finds no buffer for another one: the datagram in its hand is dropped.
    NoBuffer(u16),
    /// What the worker owes is pushed.
    Offer(Worker),
    /// What it owes meets a full pipe, and is dropped.
    Refuse(Worker),
    /// The consumer takes the front of its pipe.
    Take(Queue),
    /// The forwarder of a link with two bands sees its high pipe empty.
    Look(u16),
    /// A processor decides on the packet in its hand.
    Route(u8),
    /// The slow path answers the problem in its hand.
    Answer,
    /// A processor or the slow path has no memory for what it would make.
    Lack(Worker),
    /// The controller pushes a closing mark.
    CloseMark(Queue),
    /// A worker pushes its end mark.
    EndMark(Worker, Queue),
    /// The forwarder of a link hands what it holds to its sink, which takes it or fails.
    Send(u16, bool),
    /// The forwarder takes the front after a closing mark, and drops it.
    Sweep(Queue),
}

/// Why a step was not made.
#[derive(Clone, Copy, Debug, PartialEq, Eq, Error)]
pub enum StepFault {
    #[error("the step is not possible now")]
    NotNow,
    #[error("no memory")]
    NoMemory,
}

impl From<AllocError> for StepFault {
    ghost from_gives = { λ _ f. f ≡ NoMemory };

    fn from(_: AllocError) -> StepFault {
        StepFault::NoMemory
    }
}
