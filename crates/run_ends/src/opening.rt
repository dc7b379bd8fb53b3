//! New pipes of one kind.

ghost use Rattle.std.specs.Prelude.{◌≡◌, ◌<◌, ◌≤◌, ◌+◌, [], ℕ, IfOk};
ghost use Rattle.run_ends.specs.Opened.{AreNewPipes};

use ruled_pipe::{Consumer, Keeper};
use std::alloc::{AllocError, Global};

/// New pipes and their consumers, in the same order. No producer is made yet.
#[derive(Drop)]
pub struct NewPipes<T> {
    pub pipes: Vec<Keeper<T>>,
    pub takers: Vec<Consumer<T>>,
}

impl<T: Drop> NewPipes<T> {
    /// None yet.
    pub fn none(alloc: Global) -> NewPipes<T>
        ensures { (f : ℕ → ℕ) (n : ℕ) → AreNewPipes f n 0 result.pipes.items result.takers.items }
    {
        NewPipes {
            pipes: Vec::new(alloc),
            takers: Vec::new(alloc),
        }
    }

    /// One pipe more, of a capacity from 1 to 65,536, for 1 to 64 producers.
    pub fn with_pipe(
        self,
        alloc: Global,
        capacity: usize,
        producers: usize,
    ) -> Result<NewPipes<T>, AllocError>
        requires capacity { (0 < capacity) × (capacity ≤ 65536) }
        requires producers { (0 < producers) × (producers ≤ 64) }
        ensures { IfOk result (λ n. (f : ℕ → ℕ) (k : ℕ) → AreNewPipes f producers k self.pipes.items self.takers.items → capacity ≡ f k → AreNewPipes f producers (k + 1) n.pipes.items n.takers.items) }
    {
        let NewPipes {
            mut pipes,
            mut takers,
        } = self;
        let (pipe, taker) = Keeper::<T>::new(alloc, capacity, producers)?;
        pipes.push(pipe)?;
        takers.push(taker)?;
        Ok(NewPipes { pipes, takers })
    }
}

/// A number of pipes of one capacity, from 1 to 65,536, each for 1 to 64 producers.
pub fn new_pipes<T: Drop>(
    alloc: Global,
    count: usize,
    capacity: usize,
    producers: usize,
) -> Result<NewPipes<T>, AllocError>
    requires capacity { (0 < capacity) × (capacity ≤ 65536) }
    requires producers { (0 < producers) × (producers ≤ 64) }
    ensures { IfOk result (λ n. AreNewPipes (λ _. capacity) producers count n.pipes.items n.takers.items) }
{
    let mut opened = NewPipes::none(alloc);
    for k in 0..count {
        opened = opened.with_pipe(alloc, capacity, producers)?;
    }
    Ok(opened)
}
