//! What is on its way out.

ghost use Rattle.std.specs.Prelude.{◌≡◌, ◌≤◌, is_some, length, take};
ghost use Rattle.router_rules.specs.Rules.{is_urgent};
ghost use Rattle.worker_parts.specs.Buffer.{buffer_len};
ghost use Rattle.worker_parts.specs.Items.{StandsIn};
ghost use Rattle.worker_parts.specs.Told.{named};

use crate::buffer::{Buffer, Storage};
use packet_ledger::RunBrand;
use router_rules::{LinkIndex, Outgoing, is_urgent};
use std::marker::{Model, PhantomData};

/// A packet that leaves, or the answer to one, in the buffer of the packet that arrived. What a forwarder asks of each
/// stands beside the pointer: the buffer's cache lines were written on another processor, and take time to come.
pub struct EgressPacket<N: RunBrand> {
    storage: Box<Storage>,
    len: usize,
    link: LinkIndex,
    answer: bool,
    // Whether the storage has an address to which it goes.
    is_addressed: bool,
    of: PhantomData<N>,
}

impl<N: RunBrand> Model for EgressPacket<N> {
    ghost use Rattle.std.specs.Prelude.{◌≡◌, ◌≤◌, is_some, length, take};
    ghost use Rattle.order_laws.specs.Item.{Outgoing};
    ghost use Rattle.router_rules.specs.Rules.{kinds};
    ghost use Rattle.worker_parts.specs.Items.{StandsIn};
    ghost use Rattle.worker_parts.specs.Buffer.{buffer_len};

    ghost Value = { Outgoing kinds };

    ghost view = { λ o. record { arrived = o.link; number = o.storage.value.number; answer = o.answer; link = o.storage.value.egress; parcel = record { came_by = o.storage.value.interface; to = o.storage.value.to; bytes = take o.len o.storage.value.bytes } } };

    ghost invariant = { λ o. (length o.storage.value.bytes ≡ buffer_len) × (o.len ≤ buffer_len) × StandsIn N.config o.link o.storage.value.interface × (o.is_addressed ≡ is_some o.storage.value.to) };
}

impl<N: RunBrand> Drop for EgressPacket<N> {
    fn drop(self) {
        let EgressPacket {
            storage: _,
            len: _,
            link: _,
            answer: _,
            is_addressed: _,
            of: _,
        } = self;
    }
}

impl<N: RunBrand> EgressPacket<N> {
    // What leaves by the storage's egress link: its first bytes.
    pub(crate) fn of(storage: Box<Storage>, len: usize, answer: bool) -> EgressPacket<N>
        requires bytes { length storage.value.bytes ≡ buffer_len }
        requires len { len ≤ buffer_len }
        requires stands { StandsIn N.config storage.value.link storage.value.interface }
        ensures { result ≡ record { arrived = storage.value.link; number = storage.value.number; answer = answer; link = storage.value.egress; parcel = record { came_by = storage.value.interface; to = storage.value.to; bytes = take len storage.value.bytes } } }
    {
        let link = storage.link;
        let is_addressed = storage.to.is_some();
        EgressPacket {
            storage,
            len,
            link,
            answer,
            is_addressed,
            of: PhantomData,
        }
    }

    /// The link by which its packet came, whose buffer it has.
    pub fn arrived(&self) -> LinkIndex
        ensures arrived { result ≡ self.now.arrived }
        ensures stands { StandsIn N.config self.now.arrived self.now.parcel.came_by }
    {
        self.link
    }

    /// The link by which it leaves.
    pub fn link(&self) -> LinkIndex
        ensures { result ≡ self.now.link }
    {
        self.storage.egress
    }

    /// Whether it is the answer to a packet.
    pub fn is_answer(&self) -> bool
        ensures { result ≡ self.now.answer }
    {
        self.answer
    }

    /// Whether it goes to the high band of a link that has two.
    pub fn is_urgent(&self) -> bool
        ensures { result ≡ is_urgent self.now.parcel.bytes }
    {
        is_urgent(self.bytes())
    }

    /// Its name for a sink.
    pub fn named(&self) -> Outgoing
        ensures { result ≡ named self.now }
    {
        let storage = &*self.storage;
        Outgoing {
            arrived: storage.interface.id(),
            number: storage.number,
            answer: self.answer,
            to: if self.is_addressed { storage.to } else { None },
        }
    }

    /// The bytes that leave.
    pub fn bytes(&self) -> &[u8]
        ensures { result.now ≡ self.now.parcel.bytes }
    {
        &self.storage.bytes[..self.len]
    }

    /// Its buffer, which begins with its bytes and is free again.
    pub fn into_buffer(self) -> Buffer
        ensures { take (length self.parcel.bytes) result ≡ self.parcel.bytes }
    {
        let EgressPacket {
            storage,
            len: _,
            link: _,
            answer: _,
            is_addressed: _,
            of: _,
        } = self;
        Buffer { storage }
    }
}
