//! Pipes settled once all their producers are back.

ghost use Rattle.std.specs.Prelude.{◌≡◌, List};
ghost use Rattle.ruled_pipe.specs.Pipe.{Shape, shape_of};
ghost use Rattle.ruled_pipe.specs.Producer.{Sender};
ghost use Rattle.run_ends.specs.Settled.{AreSettled, IsDone};
ghost use Rattle.run_ends.specs.Finished.{HaveFinished, IsReady};
ghost use Rattle.run_ends.specs.TakenBack.{HaveBack};

use crate::line::Line;
use ruled_pipe::{Consumer, Keeper};
use worker_laws::{drains, stays_empty};

/// Settles one pipe, whose workers have all ended, or which is not used. It takes no memory.
pub fn settle<T: Drop>(pipe: Keeper<T>, taker: Consumer<T>)
    requires { IsReady pipe taker }
    ensures { IsDone (shape_of pipe) pipe.senders taker }
{
    drains::<T>();
    stays_empty::<T>();
    let _ = pipe.settle(taker);
}

/// Settles pipes of one kind, each with its consumer, once all their workers have ended and their
/// producers are back. It takes no memory.
pub fn settle_all<T: Drop>(pipes: Vec<Keeper<T>>, takers: Vec<Consumer<T>>)
    requires { (rows : List (List (Sender T))) × (ss : List Shape) × HaveBack rows ss pipes.items × HaveFinished ss rows takers.items }
    ensures { (rows : List (List (Sender T))) (ss : List Shape) → HaveBack rows ss pipes.items → AreSettled 0 rows ss takers.items }
{
    let count = pipes.len();
    let mut pipes = Line::of(pipes);
    let mut takers = Line::of(takers);
    for k in 0..count {
        let pipe = pipes.next();
        let taker = takers.next();
        settle(pipe, taker);
    }
}
