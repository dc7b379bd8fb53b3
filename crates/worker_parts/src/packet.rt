//! A datagram on its way to its processor.

ghost use Rattle.std.specs.Prelude.{◌≡◌, ◌≤◌, length, take};
ghost use Rattle.packet_answer.specs.Answer.{IsAnswerable};
ghost use Rattle.process_packet.specs.Decide.{decide, moved};
ghost use Rattle.process_packet.specs.Network.{network};
ghost use Rattle.process_packet.specs.declared.decision.Problem.{Problem as Told};
ghost use Rattle.router_rules.specs.Rules.{by_decision, decided};
ghost use Rattle.worker_order.specs.Heard.{arrival};
ghost use Rattle.worker_parts.specs.Items.{StandsIn, asking, leaving, with_bytes};
ghost use Rattle.worker_parts.specs.Buffer.{buffer_len};

use crate::buffer::{Buffer, Storage};
use crate::egress_packet::EgressPacket;
use crate::read_buffer::ReadBuffer;
use crate::request::SlowPathRequest;
use packet_ledger::RunBrand;
use process_packet::{Config, Decision, Problem, Underlay, answers_are_sound, route_in_place};
use router_rules::{Interface, LinkIndex};
use std::marker::{Model, PhantomData};

/// A datagram as it arrived, in the buffer into which it was read.
#[derive(Drop)]
pub struct Packet<N: RunBrand> {
    pub(crate) storage: Box<Storage>,
    pub(crate) of: PhantomData<N>,
}

impl<N: RunBrand> Model for Packet<N> {
    ghost use Rattle.std.specs.Prelude.{◌≡◌, ◌≤◌, length, take};
    ghost use Rattle.order_laws.specs.Item.{Arrival};
    ghost use Rattle.router_rules.specs.Rules.{kinds};
    ghost use Rattle.worker_order.specs.Heard.{arrival};
    ghost use Rattle.worker_parts.specs.Items.{StandsIn};
    ghost use Rattle.worker_parts.specs.Buffer.{buffer_len};

    ghost Value = { Arrival kinds };

    ghost view = { λ p. arrival p.storage.value.link p.storage.value.interface p.storage.value.number p.storage.value.source p.storage.value.moment (take p.storage.value.len p.storage.value.bytes) };

    ghost invariant = { λ p. (length p.storage.value.bytes ≡ buffer_len) × (p.storage.value.len ≤ buffer_len) × StandsIn N.config p.storage.value.link p.storage.value.interface };
}

// Decides on the datagram at the front of a buffer, where it lies.
fn decide_at_front(
    config: &Config,
    interface: Interface,
    source: Underlay,
    now: u64,
    bytes: &mut [u8],
    len: usize,
) -> Decision
    requires { len ≤ length bytes.old }
    ensures decision { result ≡ decide (network config.now) interface source now (take len bytes.old) }
    ensures bytes { take len bytes.new ≡ moved (network config.now) interface source now (take len bytes.old) }
    ensures same { length bytes.new ≡ length bytes.old }
{
    let (front, _) = bytes.split_at_mut(len);
    route_in_place(config, interface.id(), source, now, front)
}

impl<N: RunBrand> Packet<N> {
    /// The datagram of the first `len` bytes of what was read, which came by a link, with its number among
    /// the datagrams of that link.
    pub fn new(
        link: LinkIndex,
        interface: Interface,
        number: u64,
        source: Underlay,
        moment: u64,
        len: usize,
        read: ReadBuffer,
    ) -> Packet<N>
        requires len { len ≤ buffer_len }
        requires stands { StandsIn N.config link interface }
        ensures { result ≡ arrival link interface number source moment (take len read) }
    {
        let ReadBuffer { mut storage } = read;
        storage.len = len;
        storage.link = link;
        storage.interface = interface;
        storage.number = number;
        storage.source = source;
        storage.moment = moment;
        Packet {
            storage,
            of: PhantomData,
        }
    }

    /// The link by which it came.
    pub fn link(&self) -> LinkIndex
        ensures link { result ≡ self.now.link }
        ensures stands { StandsIn N.config self.now.link self.now.datagram.interface }
    {
        self.storage.link
    }

    /// Its number among the datagrams of that link, from 1 on.
    pub fn number(&self) -> u64
        ensures { result ≡ self.now.number }
    {
        self.storage.number
    }

    /// The interface of the link by which it came; 0 is the internal network.
    pub fn interface(&self) -> Interface
        ensures { result ≡ self.now.datagram.interface }
    {
        self.storage.interface
    }

    /// Decides on it where it lies: where it leaves, its bytes are what leaves, and else as they came.
    pub fn decide(&mut self, config: &Config) -> Decision
        ensures decided { by_decision config.now self.old.datagram.interface result self.new.datagram.bytes ≡ decided config.now self.old.datagram }
        ensures kept { self.new ≡ with_bytes self.new.datagram.bytes self.old }
        ensures sound { (p : Told) → result ≡ Decision.Answer p → IsAnswerable self.new.datagram.bytes p × (self.new.datagram.bytes ≡ self.old.datagram.bytes) }
    {
        answers_are_sound();
        let storage = &mut *self.storage;
        let (interface, source, now) = (storage.interface, storage.source, storage.moment);
        let len = storage.len;
        decide_at_front(
            config,
            interface,
            source,
            now,
            storage.bytes.as_mut_slice(),
            len,
        )
    }

    /// Its buffer, which begins with its bytes and is free again.
    pub fn into_buffer(self) -> Buffer
        ensures { take (length self.datagram.bytes) result ≡ self.datagram.bytes }
    {
        let Packet { storage, of: _ } = self;
        Buffer { storage }
    }

    /// The packet on its way out by a link, with its bytes as they are.
    pub fn into_egress_packet(self, link: LinkIndex, to: Option<Underlay>) -> EgressPacket<N>
        ensures { result ≡ leaving self link to }
    {
        let Packet { mut storage, of: _ } = self;
        storage.egress = link;
        storage.to = to;
        let len = storage.len;
        EgressPacket::of(storage, len, false)
    }

    /// The packet with what it is answered.
    pub fn into_request(self, problem: Problem) -> SlowPathRequest<N>
        requires { IsAnswerable self.datagram.bytes problem }
        ensures { result ≡ asking self problem }
    {
        SlowPathRequest {
            packet: self,
            problem,
        }
    }
}
