//! The ends of a pipe gathered, and what then holds of the whole.

ghost use Rattle.std.specs.Prelude.{◌≡◌, [], List, length};
ghost use Rattle.ruled_pipe.specs.declared.entry.Entry.{Entry};
ghost use Rattle.ruled_pipe.specs.Pipe.{AreAllOf};
ghost use Rattle.ruled_pipe.specs.Gathered.{IsWhole, IsSettled, EachEndsWithMark, ends_in};

use crate::consumer::Consumer;
use crate::keeper::Keeper;
use crate::pipe::Pipe;
use crate::producer::Producer;
use std::marker::Model;
use std::snapshot::Snapshot;

/// What the ends of a pipe had seen when they were gathered. It has no bytes.
#[derive(Drop)]
pub struct Gathered<T> {
    pub(crate) keeper: Snapshot<Keeper<T>>,
    pub(crate) taker: Snapshot<Consumer<T>>,
}

impl<T> Model for Gathered<T> {
    ghost use Rattle.std.specs.Prelude.{List};
    ghost use Rattle.ruled_pipe.specs.declared.entry.Entry.{Entry};
    ghost use Rattle.ruled_pipe.specs.Gathered.{Views, views, IsWhole};

    ghost Value = { Views T };

    ghost view = { λ g. views g.keeper.value.senders g.taker.value };

    ghost invariant = { λ g. (held : List (Entry T)) × IsWhole g.taker.value.capacity g.keeper.value.senders g.taker.value.taken held };
}

impl<T> Gathered<T> {
    /// A law, which runs nothing: where the last that each producer offered was its only end mark, and
    /// the consumer took as many end marks as there are producers, nothing is held, and what was taken
    /// is all that was accepted, for each producer and in sum.
    pub fn settled(&self)
        requires ended { EachEndsWithMark self.now.senders }
        requires taken { ends_in self.now.taker.taken ≡ length self.now.senders }
        ensures empty { (held : List (Entry T)) → IsWhole self.now.taker.capacity self.now.senders self.now.taker.taken held → held ≡ [] }
        ensures settled { IsSettled self.now.senders self.now.taker.taken }
    {
        let _ = &self.keeper;
    }
}

impl<T: Drop> Pipe<T> {
    /// Gathers the ends of this pipe, all of them, the producers in the order of their numbers. It takes
    /// no memory.
    pub fn gather(self, producers: Vec<Producer<T>>, consumer: Consumer<T>) -> Gathered<T>
        requires { AreAllOf self producers.items consumer }
        ensures views { (result.senders ≡ producers.items) × (result.taker ≡ consumer) }
        ensures whole { (held : List (Entry T)) × IsWhole self.capacity result.senders result.taker.taken held }
    {
        let mut keeper = self.into_keeper();
        for producer in producers {
            keeper.absorb(producer);
        }
        keeper.settle(consumer)
    }
}
