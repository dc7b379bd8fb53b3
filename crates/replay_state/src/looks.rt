//! Of which links the high pipe was seen empty.

ghost use Rattle.std.specs.Prelude.{◌≡◌, false, IfOk, replicate, slice_index_or, slice_set};
ghost use Rattle.replay_laws.specs.Next.{forgotten};
ghost use Rattle.replay_places.specs.WorkerIndex.{queue_of};

use replay_places::{QueueIndex, WorkerIndex};
use std::alloc::{AllocError, Global};
use std::marker::Model;

/// Of each link, whether its high pipe was seen empty.
pub struct Looks {
    links: Vec<bool>,
}

impl Model for Looks {
    ghost use Rattle.std.specs.Prelude.{Bool, List};

    ghost Value = { List Bool };

    ghost view = { λ l. l.links.items };
}

impl Drop for Looks {
    fn drop(self) {
        let Looks { links: _ } = self;
    }
}

impl Looks {
    /// The looks of a number of links, none seen empty. `Err` where no memory is left.
    pub fn new(alloc: Global, count: usize) -> Result<Looks, AllocError>
        ensures { IfOk result (λ looks. looks ≡ replicate count false) }
    {
        let mut links = Vec::new(alloc);
        for i in 0..count {
            links.push(false)?;
        }
        Ok(Looks { links })
    }

    /// Whether the high pipe of a link was seen empty; false where there is no such link.
    pub fn get(&self, link: u16) -> bool
        ensures { result ≡ slice_index_or self.now link false }
    {
        let at = usize::from(link);
        if at < self.links.len() {
            self.links[at]
        } else {
            false
        }
    }

    /// Notes it of a link; where there is none, nothing changes.
    pub fn set(&mut self, link: u16, seen: bool)
        ensures { self.new ≡ slice_set self.old link seen }
    {
        let at = usize::from(link);
        if at < self.links.len() {
            self.links[at] = seen;
        }
    }

    /// A note is used up by the next take or sweep of its link.
    pub fn use_up(&mut self, queue_index: QueueIndex)
        ensures { self.new ≡ forgotten (queue_of queue_index) self.old }
    {
        if let QueueIndex::High(link) | QueueIndex::Of(WorkerIndex::Forwarder(link)) = queue_index {
            self.set(link, false);
        }
    }
}
