//! What was sent.

ghost use Rattle.std.specs.List.{flat_map};
ghost use Rattle.std.specs.Prelude.{◌≡◌, ◌++◌, ◌∷◌, [], IfOk, is_ok, if◌then◌else◌, length, map, option_map, replicate, slice_index_or, slice_set};
ghost use Rattle.order_laws.specs.Item.{is_one};
ghost use Rattle.replay_laws.specs.Place.{in_sent};
ghost use Rattle.replay_state.specs.Items.{outgoing_in};
ghost use Rattle.replay_state.specs.Sent.{first, left};
ghost use Rattle.replay_state.specs.Sent.{joined};
ghost use Rattle.replay_state.specs.Sent.{place_of_sent};

use crate::bytes::Bytes;
use crate::item::Out;
use router_rules::Outgoing;
use std::alloc::{AllocError, Global};
use std::marker::Model;

/// The numbers of the links by which a packet came and left.
#[derive(Clone, Copy)]
struct Way {
    arrived: u16,
    link: u16,
}

/// What was sent on one link, in order.
#[derive(Drop)]
struct Outbox {
    entries: Vec<(Outgoing, Bytes)>,
    /// Of each entry.
    ways: Vec<Way>,
}

impl Model for Outbox {
    ghost use Rattle.std.specs.Prelude.{◌≡◌, List, length};
    ghost use Rattle.order_laws.specs.Item.{Outgoing};
    ghost use Rattle.router_rules.specs.Rules.{kinds};

    ghost Value = { List (Outgoing kinds) };

    ghost use Rattle.replay_state.specs.Sent.{joined};

    ghost view = { λ o. joined o.ways.items o.entries.items };

    ghost invariant = { λ o. length o.ways.items ≡ length o.entries.items };
}

impl Outbox {
    fn new(alloc: Global) -> Outbox
        ensures { result ≡ [] }
    {
        Outbox {
            entries: Vec::new(alloc),
            ways: Vec::new(alloc),
        }
    }

    fn entries(&self) -> &[(Outgoing, Bytes)]
        ensures { result.now ≡ map left self.now }
    {
        self.entries.as_slice()
    }

    fn push(&mut self, out: Out) -> Result<(), AllocError>
        ensures { self.new ≡ (if is_ok result then self.old ++ outgoing_in out ∷ [] else self.old) }
    {
        let way = Way {
            arrived: out.arrived,
            link: out.link,
        };
        let outgoing = Outgoing {
            arrived: out.parcel.came_by,
            number: out.number,
            answer: out.answer,
            to: out.parcel.to,
        };
        let before = self.ways.len();
        self.ways.push(way)?;
        if self.entries.push((outgoing, out.parcel.bytes)).is_err() {
            self.ways.truncate(before);
            return Err(AllocError);
        }
        Ok(())
    }
}

/// What was sent on each link, in order.
pub struct Sent {
    links: Vec<Outbox>,
}

impl Model for Sent {
    ghost use Rattle.std.specs.Prelude.{List};
    ghost use Rattle.order_laws.specs.Item.{Outgoing};
    ghost use Rattle.router_rules.specs.Rules.{kinds};

    ghost Value = { List (List (Outgoing kinds)) };

    ghost view = { λ s. s.links.items };
}

impl Drop for Sent {
    fn drop(self) {
        let Sent { links: _ } = self;
    }
}

impl Sent {
    /// What a number of links sent: nothing yet. `Err` where no memory is left.
    pub fn new(alloc: Global, count: usize) -> Result<Sent, AllocError>
        ensures { IfOk result (λ sent. sent ≡ replicate count []) }
    {
        let mut links = Vec::new(alloc);
        for i in 0..count {
            links.push(Outbox::new(alloc))?;
        }
        Ok(Sent { links })
    }

    /// What was sent on a link; nothing where there is none.
    pub fn on(&self, link: usize) -> &[(Outgoing, Bytes)]
        ensures { result.now ≡ map left (slice_index_or self.now link []) }
    {
        match self.links.get(link) {
            None => &[],
            Some(outbox) => outbox.entries(),
        }
    }

    /// Adds what leaves by a link; where there is no such link, nothing changes. At `Err` no memory
    /// was left, and nothing changes.
    pub fn push(&mut self, link: usize, out: Out) -> Result<(), AllocError>
        ensures { self.new ≡ (if is_ok result then slice_set self.old link (slice_index_or self.old link [] ++ outgoing_in out ∷ []) else self.old) }
    {
        if link < self.links.len() {
            return self.links[link].push(out);
        }
        drop(out);
        Ok(())
    }
}

/// Whether the packet with this number on its arriving link is among what was sent, and then whether as
/// the answer to it.
fn find_among(
    ways: &[Way],
    entries: &[(Outgoing, Bytes)],
    arrived: u16,
    number: u64,
) -> Option<bool>
    requires { length ways.now ≡ length entries.now }
    ensures { option_map place_of_sent result ≡ first (in_sent (is_one arrived number) (joined ways.now entries.now)) }
{
    for (i, way) in ways.iter().enumerate() {
        let outgoing = &entries[i].0;
        if way.arrived == arrived && outgoing.number == number {
            return Some(outgoing.answer);
        }
    }
    None
}

impl Outbox {
    fn find(&self, arrived: u16, number: u64) -> Option<bool>
        ensures { option_map place_of_sent result ≡ first (in_sent (is_one arrived number) self.now) }
    {
        find_among(
            self.ways.as_slice(),
            self.entries.as_slice(),
            arrived,
            number,
        )
    }
}

impl Sent {
    /// How many links there are.
    pub fn len(&self) -> usize
        ensures { result ≡ length self.now }
    {
        self.links.len()
    }

    /// Whether the packet with this number on its arriving link was sent, and then whether as the answer
    /// to it.
    pub fn find(&self, arrived: u16, number: u64) -> Option<bool>
        ensures { option_map place_of_sent result ≡ first (flat_map (in_sent (is_one arrived number)) self.now) }
    {
        find_in_outboxes(self.links.as_slice(), arrived, number)
    }
}

/// The same over these links.
fn find_in_outboxes(links: &[Outbox], arrived: u16, number: u64) -> Option<bool>
    ensures { option_map place_of_sent result ≡ first (flat_map (in_sent (is_one arrived number)) links.now) }
{
    for outbox in links {
        if let Some(answer) = outbox.find(arrived, number) {
            return Some(answer);
        }
    }
    None
}
