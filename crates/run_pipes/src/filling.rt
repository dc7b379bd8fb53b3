//! Pipes of free buffers, filled before a run.

ghost use Rattle.std.specs.Prelude.{◌≡◌, ◌<◌, ◌+◌, ℕ, List, IfOk, []};
ghost use Rattle.run_ends.specs.Opened.{made_pipes};
ghost use Rattle.run_ends.specs.Rows.{AreFor};
ghost use Rattle.ruled_pipe.specs.Pipe.{Shape};
ghost use Rattle.run_pipes.specs.Filling.{AreFilled, HasPut};

use ruled_pipe::{Keeper, Producer};
use run_ends::{EndMaker, next_ends};
use std::alloc::{AllocError, Global};
use std::sync::Wait;
use worker_parts::Buffer;

#[derive(Drop)]
struct Filler<'a, R> {
    rt: &'a R,
    buffers: usize,
}

impl<'a, R: Wait> EndMaker<Buffer, Producer<Buffer>> for Filler<'a, R> {
    ghost use Rattle.run_pipes.specs.Filling.{HasPut};

    ghost fits = { λ m at. Unit {0} };

    ghost makes = { λ m at s f. HasPut m.buffers s f };

    fn make(
        &self,
        alloc: Global,
        at: usize,
        producer: Producer<Buffer>,
    ) -> Result<Producer<Buffer>, AllocError>
        requires fits { Unit {0} }
        requires new { (producer.offers ≡ []) × (producer.refusals ≡ []) }
        ensures { IfOk result (λ f. HasPut self.now.buffers producer f) }
    {
        let _ = at;
        let filled = fill_one(self.rt, alloc, producer, self.buffers)?;
        Ok(filled)
    }
}

fn fill_one<R: Wait>(
    rt: &R,
    alloc: Global,
    end: Producer<Buffer>,
    buffers: usize,
) -> Result<Producer<Buffer>, AllocError>
    requires { end.offers ≡ [] }
    ensures { IfOk result (λ f. HasPut buffers end f) }
{
    let mut end = end;
    for put in 0..buffers {
        let _ = put;
        let buffer = Buffer::new(alloc)?;
        // Nobody else pushes yet, so none is refused; a pool that lacks one would be no pool of this size.
        if end.offer(rt, buffer).is_err() {
            return Err(AllocError);
        }
    }
    Ok(end)
}

/// Puts a number of buffers into each pipe, by its next end.
pub fn fill<R: Wait>(
    rt: &R,
    alloc: Global,
    pipes: &mut Vec<Keeper<Buffer>>,
    buffers: usize,
) -> Result<Vec<Producer<Buffer>>, AllocError>
    requires { (k : ℕ) × (n : ℕ) × (ss : List Shape) × (pipes.old.items ≡ made_pipes k ss) × AreFor n ss × (k < n) }
    ensures made { IfOk result (λ _. (k : ℕ) (ss : List Shape) → pipes.old.items ≡ made_pipes k ss → pipes.new.items ≡ made_pipes (k + 1) ss) }
    ensures ends { IfOk result (λ f. (k : ℕ) (ss : List Shape) → pipes.old.items ≡ made_pipes k ss → AreFilled k buffers ss f.items) }
{
    let ends = next_ends(alloc, pipes, &Filler { rt, buffers })?;
    Ok(ends)
}
