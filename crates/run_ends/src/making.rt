//! A worker's ends, made one of each pipe.

ghost use Rattle.std.specs.Prelude.{◌≡◌, ◌<◌, ◌+◌, ℕ, List, IfOk, length};
ghost use Rattle.ruled_pipe.specs.Pipe.{Shape};
ghost use Rattle.run_ends.specs.Rows.{AreFor, fresh_ends};
ghost use Rattle.run_ends.specs.Opened.{AreMadeOf, made_pipes};

use ruled_pipe::{Keeper, Producer};
use std::alloc::{AllocError, Global};

/// What a worker has in place of a bare producer.
pub trait EndMaker<T, E> {
    ghost use Rattle.std.specs.Prelude.{◌≡◌, ℕ, [], IfOk};
    ghost use Rattle.ruled_pipe.specs.Producer.{Sender};

    /// At which places it can make one.
    ghost fits: { Self → ℕ → Type 0 };

    /// What it makes of the producer of the pipe at a place.
    ghost makes: { Self → ℕ → Sender T → E → Type 0 };

    /// Makes it of a producer that pushed nothing yet.
    fn make(&self, alloc: Global, at: usize, producer: Producer<T>) -> Result<E, AllocError>
        requires fits { fits self.now at }
        requires new { (producer.offers ≡ []) × (producer.refusals ≡ []) }
        ensures { IfOk result (λ e. makes self.now at producer e) };
}

/// The next worker's ends, one of each pipe, in order.
pub fn next_ends<T: Drop, E: Drop, M: EndMaker<T, E>>(
    alloc: Global,
    pipes: &mut Vec<Keeper<T>>,
    maker: &M,
) -> Result<Vec<E>, AllocError>
    requires pipes { (k : ℕ) × (n : ℕ) × (ss : List Shape) × (pipes.old.items ≡ made_pipes k ss) × AreFor n ss × (k < n) }
    requires fits { (j : ℕ) → j < length pipes.old.items → M.fits maker.now j }
    ensures made { IfOk result (λ _. (k : ℕ) (ss : List Shape) → pipes.old.items ≡ made_pipes k ss → pipes.new.items ≡ made_pipes (k + 1) ss) }
    ensures ends { IfOk result (λ r. (k : ℕ) (ss : List Shape) → pipes.old.items ≡ made_pipes k ss → AreMadeOf (M.makes maker.now) 0 (fresh_ends k ss) r.items) }
{
    let mut row = Vec::with_capacity(alloc, pipes.len())?;
    for at in 0..pipes.len() {
        let producer = pipes[at].producer(alloc)?;
        let end = maker.make(alloc, at, producer)?;
        row.push_reserved(end);
    }
    Ok(row)
}

#[derive(Drop)]
struct Bare {}

impl<T: Drop> EndMaker<T, Producer<T>> for Bare {
    ghost use Rattle.std.specs.Prelude.{◌≡◌};

    ghost fits = { λ m at. Unit {0} };

    ghost makes = { λ m at s e. e ≡ s };

    fn make(
        &self,
        alloc: Global,
        at: usize,
        producer: Producer<T>,
    ) -> Result<Producer<T>, AllocError>
        ensures { IfOk result (λ e. e ≡ producer) }
    {
        let _ = alloc;
        let _ = at;
        Ok(producer)
    }
}

/// These as bare producers.
pub fn next_producers<T: Drop>(
    alloc: Global,
    pipes: &mut Vec<Keeper<T>>,
) -> Result<Vec<Producer<T>>, AllocError>
    requires { (k : ℕ) × (n : ℕ) × (ss : List Shape) × (pipes.old.items ≡ made_pipes k ss) × AreFor n ss × (k < n) }
    ensures made { IfOk result (λ _. (k : ℕ) (ss : List Shape) → pipes.old.items ≡ made_pipes k ss → pipes.new.items ≡ made_pipes (k + 1) ss) }
    ensures ends { IfOk result (λ r. (k : ℕ) (ss : List Shape) → pipes.old.items ≡ made_pipes k ss → r.items ≡ fresh_ends k ss) }
{
    let ends = next_ends(alloc, pipes, &Bare {})?;
    Ok(ends)
}
