//! A packet on its way to the slow path.

ghost use Rattle.std.specs.Prelude.{◌≡◌, ◌≤◌, length, take, IfOk};
ghost use Rattle.packet_answer.specs.Answer.{IsAnswerable, answered};
ghost use Rattle.router_rules.specs.Rules.{replied};
ghost use Rattle.scmp_answer.specs.Outcome.{outcome_in, used};
ghost use Rattle.worker_parts.specs.Items.{StandsIn, answering};
ghost use Rattle.worker_parts.specs.Replying.{reply_of};
ghost use Rattle.worker_parts.specs.Buffer.{buffer_len};

use crate::buffer::Buffer;
use crate::egress_packet::EgressPacket;
use crate::packet::Packet;
use packet_answer::{AnswerLen, LONGEST_ANSWER, answer_into};
use packet_ledger::RunBrand;
use process_packet::{Cause, Config, Problem, Underlay};
use router_rules::{Interface, LinkIndex, Shared};
use std::marker::Model;

/// A packet without a fault, on its way to the slow path, and what it is answered.
pub struct SlowPathRequest<N: RunBrand> {
    pub(crate) packet: Packet<N>,
    pub(crate) problem: Problem,
}

impl<N: RunBrand> Model for SlowPathRequest<N> {
    ghost use Rattle.packet_answer.specs.Answer.{IsAnswerable};
    ghost use Rattle.order_laws.specs.Settled.{SlowPathRequest as Request};
    ghost use Rattle.router_rules.specs.Rules.{kinds};
    ghost use Rattle.worker_parts.specs.Items.{asking};

    ghost Value = { Request kinds };

    ghost view = { λ q. asking q.packet q.problem };

    ghost invariant = { λ q. IsAnswerable q.packet.datagram.bytes q.problem };
}

impl<N: RunBrand> Drop for SlowPathRequest<N> {
    fn drop(self) {
        let SlowPathRequest {
            packet: _,
            problem: _,
        } = self;
    }
}

// Writes the answer to the datagram at the front of a buffer over it.
fn answer_over(
    config: &Config,
    link: u16,
    source: Underlay,
    now: u64,
    problem: &Problem,
    bytes: &mut [u8],
    len: usize,
) -> AnswerLen
    requires long { length bytes.old ≡ buffer_len }
    requires len { len ≤ buffer_len }
    requires sound { IsAnswerable (take len bytes.old) problem.now }
    ensures answer { outcome_in bytes.new result ≡ answered config.now link source now (take len bytes.old) problem.now }
    ensures fits { used result ≤ 1232 }
    ensures same { length bytes.new ≡ buffer_len }
{
    let mut out = [0; LONGEST_ANSWER];
    let answer = answer_into(config, link, source, now, &bytes[..len], problem, &mut out);
    let (front, _) = bytes.split_at_mut(LONGEST_ANSWER);
    front.copy_from_slice(&out);
    answer
}

/// Why there is no answer, with the buffer of the packet, which is free again.
#[derive(Drop)]
pub struct Withheld {
    pub cause: Cause,
    pub buffer: Buffer,
}

impl<N: RunBrand> SlowPathRequest<N> {
    /// The link by which its packet came.
    pub fn link(&self) -> LinkIndex
        ensures link { result ≡ self.now.arrival.link }
        ensures stands { StandsIn N.config self.now.arrival.link self.now.arrival.datagram.interface }
    {
        self.packet.link()
    }

    /// Its buffer, which begins with the packet's bytes and is free again.
    pub fn into_buffer(self) -> Buffer
        ensures { take (length self.arrival.datagram.bytes) result ≡ self.arrival.datagram.bytes }
    {
        let SlowPathRequest { packet, problem: _ } = self;
        packet.into_buffer()
    }

    /// The answer, in the packet's buffer. At `Err` there is none: the cause and the
    /// buffer are given back. It takes no memory.
    pub fn answer(self, shared: &Shared) -> Result<EgressPacket<N>, Withheld>
        ensures replied { reply_of result ≡ replied shared.now.config self.arrival.datagram self.problem }
        ensures named { IfOk result (λ o. o ≡ answering self.arrival o.link o.parcel.to o.parcel.bytes) }
    {
        let SlowPathRequest { packet, problem } = self;
        answer_packet(shared, packet, &problem)
    }
}

// Writes the answer over the packet.
fn answer_packet<N: RunBrand>(
    shared: &Shared,
    packet: Packet<N>,
    problem: &Problem,
) -> Result<EgressPacket<N>, Withheld>
    requires { IsAnswerable packet.datagram.bytes problem.now }
    ensures replied { reply_of result ≡ replied shared.now.config packet.datagram problem.now }
    ensures named { IfOk result (λ o. o ≡ answering packet o.link o.parcel.to o.parcel.bytes) }
{
    let Packet { mut storage, of: _ } = packet;
    let (interface, source, now) = (storage.interface, storage.source, storage.moment);
    let len = storage.len;
    match answer_over(
        &shared.config,
        interface.id(),
        source,
        now,
        problem,
        storage.bytes.as_mut_slice(),
        len,
    ) {
        AnswerLen::Send { link, to, len } => {
            storage.egress = shared.ports.index(Interface::of(link));
            storage.to = to;
            Ok(EgressPacket::of(storage, len, true))
        }
        AnswerLen::Drop(cause) => Err(Withheld {
            cause,
            buffer: Buffer { storage },
        }),
    }
}
