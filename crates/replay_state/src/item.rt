//! What is in a pipe or in a worker's hand.

ghost use Rattle.std.specs.Prelude.{◌≡◌, IfOk};
ghost use Rattle.replay_laws.specs.Marks.{is_close, is_end, is_named};
ghost use Rattle.order_laws.specs.Item.{is_one};
ghost use Rattle.replay_laws.specs.Next.{full_of, hand_after};
ghost use Rattle.replay_laws.specs.Totals.{is_packet};
ghost use Rattle.replay_state.specs.Causes.{cause_in};
ghost use Rattle.replay_state.specs.Items.{hand_in, item_in};

use crate::bytes::Bytes;
use crate::came::Came;
use crate::cause::Cause;
use crate::hands::Hand;
use crate::packet::{Packet, Request};
use process_packet::Underlay;
use std::alloc::AllocError;

/// What leaves: its bytes, and to whom.
#[derive(Drop)]
pub struct Parcel {
    /// The interface by which the packet came; 0 is the internal network.
    pub came_by: u16,
    /// Absent on an external link.
    pub to: Option<Underlay>,
    pub bytes: Bytes,
}

/// A packet on its way out, or the answer to one.
#[derive(Drop)]
pub struct Out {
    /// The number of the arriving link.
    pub arrived: u16,
    /// The packet's number there.
    pub number: u64,
    /// Whether this is the answer to it.
    pub answer: bool,
    /// The number of the leaving link.
    pub link: u16,
    pub parcel: Parcel,
}

/// What is in a pipe or in a hand: a packet on one of its stages, its answer, or a mark.
#[derive(Drop)]
pub enum Item {
    /// It is not yet received.
    Arrived(Came),
    /// It is for a processor.
    Packet(Packet),
    /// It is for the slow path, which answers it.
    Request(Request),
    /// It is for a forwarder.
    Out(Out),
    /// The mark that closes a link.
    Close,
    /// The last that a worker pushes.
    End,
}

impl Out {
    /// A copy, its bytes too. `Err` where no memory is left.
    pub fn try_clone(&self) -> Result<Out, AllocError>
        ensures { IfOk result (λ out. out ≡ self.now) }
    {
        let bytes = self.parcel.bytes.try_clone()?;
        let parcel = Parcel {
            came_by: self.parcel.came_by,
            to: self.parcel.to,
            bytes,
        };
        Ok(Out {
            arrived: self.arrived,
            number: self.number,
            answer: self.answer,
            link: self.link,
            parcel,
        })
    }
}

impl Item {
    /// The cause for which it is dropped where its pipe is full.
    pub fn full(&self) -> Cause
        ensures { cause_in result ≡ full_of (item_in self.now) }
    {
        match self {
            Item::Arrived(_) | Item::Packet(_) => Cause::ProcessorFull,
            Item::Request(_) => Cause::AnswerFull,
            Item::Out(_) | Item::Close | Item::End => Cause::LinkFull,
        }
    }

    /// What a hand has after taking it: a mark is only noted.
    pub fn in_hand(self) -> Option<Hand>
        ensures { hand_in result ≡ hand_after (item_in self) }
    {
        match self {
            Item::Close | Item::End => None,
            item => Some(Hand::Got(item)),
        }
    }

    /// Whether it is the mark that closes a link.
    pub fn is_close(&self) -> bool
        ensures { result ≡ is_close (item_in self.now) }
    {
        matches!(self, Item::Close)
    }

    /// Whether it is an end mark.
    pub fn is_end(&self) -> bool
        ensures { result ≡ is_end (item_in self.now) }
    {
        matches!(self, Item::End)
    }

    /// A copy, its bytes too. `Err` where no memory is left.
    pub fn try_clone(&self) -> Result<Item, AllocError>
        ensures { IfOk result (λ x. item_in x ≡ item_in self.now) }
    {
        match self {
            Item::Arrived(came) => Ok(Item::Arrived(came.try_clone()?)),
            Item::Packet(packet) => Ok(Item::Packet(packet.try_clone()?)),
            Item::Request(request) => Ok(Item::Request(request.try_clone()?)),
            Item::Out(out) => Ok(Item::Out(out.try_clone()?)),
            Item::Close => Ok(Item::Close),
            Item::End => Ok(Item::End),
        }
    }
}

/// Whether this is a packet, its problem or its answer, and no mark.
pub fn is_packet(item: &Item) -> bool
    ensures { result ≡ is_packet (item_in item.now) }
{
    !matches!(item, Item::Close | Item::End)
}

/// Whether this is the packet with this number on the arriving link, its problem or its answer.
pub fn is_named(item: &Item, link: u16, number: u64) -> bool
    ensures { result ≡ is_named (is_one link number) (item_in item.now) }
{
    match item {
        Item::Arrived(came) => came.link == link && came.number == number,
        Item::Packet(packet) => packet.came.link == link && packet.came.number == number,
        Item::Request(request) => request.came.link == link && request.came.number == number,
        Item::Out(out) => out.arrived == link && out.number == number,
        Item::Close | Item::End => false,
    }
}
