//! How packets ended that were not sent.

ghost use Rattle.std.specs.Prelude.{◌≡◌, ◌++◌, [], take, length, is_ok, option_to_list, if◌then◌else◌};
ghost use Rattle.replay_laws.specs.World.{fate_of};
ghost use Rattle.replay_state.specs.Causes.{cause_in};
ghost use Rattle.replay_state.specs.Items.{item_in};

use crate::cause::Cause;
use crate::item::Item;
use std::alloc::{AllocError, Global};
use std::marker::Model;

/// How a packet, or the answer to it, ended that was not sent.
#[derive(Drop)]
pub struct Fate {
    link: u16,
    number: u64,
    cause: Cause,
}

impl Model for Fate {
    ghost use Rattle.order_laws.specs.Fate.{Fate};
    ghost use Rattle.router_rules.specs.Rules.{kinds};
    ghost use Rattle.replay_state.specs.Causes.{cause_in};

    ghost Value = { Fate kinds };

    ghost view = { λ f. record { link = f.link; number = f.number; cause = cause_in f.cause } };
}

/// The fates of a run, in order.
pub struct Fates {
    items: Vec<Fate>,
}

impl Model for Fates {
    ghost use Rattle.std.specs.Prelude.{List};
    ghost use Rattle.order_laws.specs.Fate.{Fate};
    ghost use Rattle.router_rules.specs.Rules.{kinds};

    ghost Value = { List (Fate kinds) };

    ghost view = { λ f. f.items.items };
}

impl Drop for Fates {
    fn drop(self) {
        let Fates { items: _ } = self;
    }
}

/// The fate of a packet or its answer. A mark has none.
fn fate_of(item: &Item, cause: Cause) -> Option<Fate>
    ensures { option_to_list result ≡ fate_of (item_in item.now) (cause_in cause) }
{
    let (link, number) = match item {
        Item::Arrived(came) => (came.link, came.number),
        Item::Packet(packet) => (packet.came.link, packet.came.number),
        Item::Request(request) => (request.came.link, request.came.number),
        Item::Out(out) => (out.arrived, out.number),
        Item::Close | Item::End => return None,
    };
    Some(Fate {
        link,
        number,
        cause,
    })
}

impl Fates {
    /// No fates yet. It takes no memory.
    pub fn new(alloc: Global) -> Fates
        ensures { result ≡ [] }
    {
        Fates {
            items: Vec::new(alloc),
        }
    }

    /// How many were noted.
    pub fn len(&self) -> usize
        ensures { result ≡ length self.now }
    {
        self.items.len()
    }

    /// Notes the fate of an item; of a mark nothing is noted. At `Err` no memory was left, and
    /// nothing changes.
    pub fn note(&mut self, item: &Item, cause: Cause) -> Result<(), AllocError>
        ensures { self.new ≡ (if is_ok result then self.old ++ fate_of (item_in item.now) (cause_in cause) else self.old) }
    {
        if let Some(fate) = fate_of(item, cause) {
            self.items.push(fate)?;
        }
        Ok(())
    }

    /// Keeps the first `len` fates and forgets those after them.
    pub fn truncate(&mut self, len: usize)
        ensures { self.new ≡ take len self.old }
    {
        self.items.truncate(len);
    }
}

impl Fate {
    /// The number of the packet's arriving link.
    pub fn link(&self) -> u16
        ensures { result ≡ self.now.link }
    {
        self.link
    }

    /// The packet's number there.
    pub fn number(&self) -> u64
        ensures { result ≡ self.now.number }
    {
        self.number
    }

    /// Why it was not sent.
    pub fn cause(&self) -> Cause
        ensures { cause_in result ≡ self.now.cause }
    {
        self.cause
    }
}

impl Fates {
    /// All that were noted, in order.
    pub fn as_slice(&self) -> &[Fate]
        ensures { result.now ≡ self.now }
    {
        self.items.as_slice()
    }
}
