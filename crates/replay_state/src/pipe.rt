//! One pipe, kept as the list of all that was ever pushed.

ghost use Rattle.std.specs.Prelude.{◌≡◌, ◌&&◌, ◌++◌, ◌∷◌, [], Some, None, MatchOption, IfOk, is_ok, IsSome, if◌then◌else◌};
ghost use Rattle.replay_laws.specs.Marks.{ends, is_end};
ghost use Rattle.replay_laws.specs.Pipe.{empty_pipe, front, gone, has_end_of, has_room, is_marked, is_shut, one_taken, pushed, refusal_of, refused};
ghost use Rattle.replay_places.specs.WorkerIndex.{worker_of};
ghost use Rattle.replay_state.specs.Arrivals.{source};
ghost use Rattle.replay_state.specs.Ended.{has_ended};
ghost use Rattle.replay_state.specs.Items.{item_in};

use crate::came::Came;
use crate::item::Item;
use process_packet::{Arrival, NoMemory};
use replay_places::WorkerIndex;
use std::alloc::{AllocError, Global};
use std::marker::Model;

/// An item, with the worker that pushed it.
pub struct Entry {
    from: WorkerIndex,
    item: Item,
}

impl Model for Entry {
    ghost use Rattle.replay_laws.specs.Pipe.{Entry};
    ghost use Rattle.router_rules.specs.Rules.{kinds};

    ghost Value = { Entry kinds };

    ghost use Rattle.replay_places.specs.WorkerIndex.{worker_of};
    ghost use Rattle.replay_state.specs.Items.{item_in};

    ghost view = { λ e. record { from = worker_of e.from; item = item_in e.item } };
}

impl Drop for Entry {
    fn drop(self) {
        let Entry { from: _, item: _ } = self;
    }
}

impl Entry {
    /// The item, as this worker pushed it.
    pub fn new(from: WorkerIndex, item: Item) -> Entry
        ensures { result ≡ record { from = worker_of from; item = item_in item } }
    {
        Entry { from, item }
    }

    /// What was pushed.
    pub fn item(&self) -> &Item
        ensures { item_in result.now ≡ self.now.item }
    {
        &self.item
    }
}

/// A push that found a pipe full: of which packet, how many were pushed before, and how many of these
/// taken.
#[derive(Drop)]
pub struct Refusal {
    link: u16,
    number: u64,
    length: usize,
    taken: usize,
}

impl Model for Refusal {
    ghost use Rattle.replay_laws.specs.Pipe.{Refusal};

    ghost Value = { Refusal };

    ghost view = { λ r. record { link = r.link; number = r.number; length = r.length; taken = r.taken } };
}

impl Refusal {
    ghost use Rattle.std.specs.Prelude.{◌≡◌};

    /// A refusal of this packet, when `length` entries had been pushed and `taken` of them taken.
    pub fn new(link: u16, number: u64, length: usize, taken: usize) -> Refusal
        ensures { result ≡ record { link = link; number = number; length = length; taken = taken } }
    {
        Refusal {
            link,
            number,
            length,
            taken,
        }
    }
}

/// A pipe. Besides all that was pushed it keeps counts and marks that would else be looked for in it.
pub struct Pipe {
    history: Vec<Entry>,
    taken: usize,
    capacity: usize,
    refusals: Vec<Refusal>,
    /// A closing mark was pushed.
    marked: bool,
    /// A closing mark was taken.
    shut: bool,
    /// How many end marks were taken.
    ends: usize,
    /// Which workers' end marks were pushed.
    ended: Vec<WorkerIndex>,
}

impl Model for Pipe {
    ghost use Rattle.replay_laws.specs.Pipe.{Pipe};
    ghost use Rattle.router_rules.specs.Rules.{kinds};

    ghost Value = { Pipe kinds };

    ghost use Rattle.std.specs.Prelude.{◌≡◌, ◌≤◌, length, take};
    ghost use Rattle.replay_state.specs.Kept.{history_of, IsKept};

    ghost view = { history_of };

    ghost invariant = { IsKept };
}

impl Drop for Pipe {
    fn drop(self) {
        let Pipe {
            history: _,
            taken: _,
            capacity: _,
            refusals: _,
            marked: _,
            shut: _,
            ends: _,
            ended: _,
        } = self;
    }
}

/// Whether the worker is one of those that ended.
fn has_ended(ended: &[WorkerIndex], worker: WorkerIndex) -> bool
    ensures { result ≡ has_ended ended.now (worker_of worker) }
{
    ended.iter().any(|other| worker.is(*other))
}

/// Adds a worker to those whose end mark was pushed, where the item is one.
fn note_end(ended: &mut Vec<WorkerIndex>, from: WorkerIndex, item: &Item) -> Result<(), AllocError>
    ensures { ended.new.items ≡ (if is_ok result && is_end (item_in item.now) then ended.old.items ++ from ∷ [] else ended.old.items) }
{
    if item.is_end() {
        ended.push(from)?;
    }
    Ok(())
}

impl Pipe {
    /// A pipe with nothing in it.
    pub fn new(alloc: Global, capacity: usize) -> Pipe
        ensures { result ≡ empty_pipe capacity }
    {
        Pipe {
            history: Vec::new(alloc),
            taken: 0,
            capacity,
            refusals: Vec::new(alloc),
            marked: false,
            shut: false,
            ends: 0,
            ended: Vec::new(alloc),
        }
    }

    /// What arrives on a link, with nothing of it received. `Err` where no memory is left; the
    /// arrivals are dropped then.
    pub fn of_arrivals(alloc: Global, link: u16, arrivals: Vec<Arrival>) -> Result<Pipe, NoMemory>
        ensures { IfOk result (λ pipe. pipe ≡ source link arrivals.items) }
    {
        let mut pipe = Pipe::new(alloc, 0);
        for arrival in arrivals {
            let item = Item::Arrived(Came::on(link, arrival));
            if pipe.push(WorkerIndex::Receiver(link), item).is_err() {
                return Err(NoMemory);
            }
        }
        Ok(pipe)
    }

    /// Whether one more item may be pushed.
    pub fn has_room(&self) -> bool
        ensures { result ≡ has_room self.now }
    {
        self.history.len() - self.taken < self.capacity
    }

    /// Whether a closing mark was taken.
    pub fn is_shut(&self) -> bool
        ensures { result ≡ is_shut self.now }
    {
        self.shut
    }

    /// Whether a closing mark was pushed.
    pub fn is_marked(&self) -> bool
        ensures { result ≡ is_marked self.now }
    {
        self.marked
    }

    /// How many end marks were taken.
    pub fn ends_taken(&self) -> usize
        ensures { result ≡ ends (gone self.now) }
    {
        self.ends
    }

    /// What would be taken next.
    pub fn first(&self) -> Option<&Item>
        ensures { MatchOption result (front self.now ≡ None) (λ x. front self.now ≡ Some (item_in x.now)) }
    {
        match self.history.get(self.taken) {
            None => None,
            Some(entry) => Some(entry.item()),
        }
    }

    /// Pushes an item, also beyond the capacity: `has_room` tells whether there is room. At `Err`
    /// no memory was left, and the pipe is unchanged.
    pub fn push(&mut self, from: WorkerIndex, item: Item) -> Result<(), AllocError>
        ensures { self.new ≡ (if is_ok result then pushed self.old (worker_of from) (item_in item) else self.old) }
    {
        let closes = item.is_close();
        let before = self.ended.len();
        note_end(&mut self.ended, from, &item)?;
        if self.history.push(Entry::new(from, item)).is_err() {
            self.ended.truncate(before);
            return Err(AllocError);
        }
        self.marked |= closes;
        Ok(())
    }

    /// Takes the first item that is held; there has to be one.
    pub fn advance(&mut self)
        requires { IsSome (front self.old) }
        ensures { self.new ≡ one_taken self.old }
    {
        let first = self.history[self.taken].item();
        let closes = first.is_close();
        let ends = first.is_end();
        self.taken += 1;
        self.shut |= closes;
        if ends {
            self.ends += 1;
        }
    }

    /// What would be noted of an item that is refused now.
    pub fn refusal(&self, item: &Item) -> Refusal
        ensures { result ≡ refusal_of (item_in item.now) self.now }
    {
        let (link, number) = match item {
            Item::Arrived(came) => (came.link, came.number),
            Item::Packet(packet) => (packet.came.link, packet.came.number),
            Item::Request(request) => (request.came.link, request.came.number),
            Item::Out(out) => (out.arrived, out.number),
            Item::Close | Item::End => (0, 0),
        };
        Refusal::new(link, number, self.history.len(), self.taken)
    }

    /// Notes that an item was refused. At `Err` no memory was left, and the pipe is unchanged.
    pub fn refuse(&mut self, item: &Item) -> Result<(), AllocError>
        ensures { self.new ≡ (if is_ok result then refused self.old (refusal_of (item_in item.now) self.old) else self.old) }
    {
        let refusal = self.refusal(item);
        self.refusals.push(refusal)?;
        Ok(())
    }

    /// Whether the worker has pushed its end mark.
    pub fn has_end_of(&self, worker: WorkerIndex) -> bool
        ensures { result ≡ has_end_of (worker_of worker) self.now }
    {
        has_ended(self.ended.as_slice(), worker)
    }
}

impl Pipe {
    ghost use Rattle.std.specs.Prelude.{drop};

    /// How many were taken.
    pub fn taken(&self) -> usize
        ensures { result ≡ self.now.taken }
    {
        self.taken
    }

    /// What was pushed and not yet taken.
    pub fn held(&self) -> &[Entry]
        ensures { result.now ≡ drop self.now.taken self.now.history }
    {
        &self.history[self.taken..]
    }
}
