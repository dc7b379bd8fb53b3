//! Workers that came back, taken apart: the pipes take back their ends.

ghost use Rattle.std.specs.Prelude.{◌≡◌, ◌<◌, ◌+◌, ◌++◌, ◌∷◌, [], List, length, vec_capacity};
ghost use Rattle.ruled_pipe.specs.Pipe.{Shape};
ghost use Rattle.worker_parts.specs.Outlets.{senders};
ghost use Rattle.run_pipes.specs.Pipes.{LinkRows};
ghost use Rattle.run_ends.specs.Rows.{AreEndsOf};
ghost use Rattle.run_ends.specs.Shutting.{AreMarking, shutter_ends};
ghost use Rattle.run_ends.specs.TakenBack.{HaveBack};
ghost use Rattle.run_report.specs.Parting.{KeptSlowPath};

use packet_ledger::Share;
use ruled_pipe::{Consumer, Keeper};
use run_ends::{Line, Shutter};
use run_pipes::{Pipes, take_back};
use worker_forwarder::{Forwarder, PartedForwarder};
use worker_parts::{EgressPacket, Gate, Packet, RunBrand, Sink, SlowPathRequest, Source};
use worker_processor::{PartedProcessor, PartedSlowPath, Processor, SlowPath};
use worker_receiver::{PartedReceiver, Receiver};

/// A worker that can be taken apart: the pipes take back its ends, and what else is left of it is added to `P`.
pub trait Apart<N: RunBrand, P> {
    ghost use Rattle.std.specs.Prelude.{◌∷◌, [], List};
    ghost use Rattle.run_pipes.specs.declared.pipes.Pipes.{Pipes as Keepers};

    /// The ends of these workers are the next that the pipes take back, and there is room for what is left of them.
    ghost fits: { List Self → Keepers N → P → Type 0 };

    /// What these workers gave to the pipes and to what was left before, and what is known of each.
    ghost gave: { List Self → Keepers N → P → Keepers N → P → Type 0 };

    /// Takes it apart. It takes no memory.
    fn take_apart(self, pipes: &mut Pipes<N>, left: &mut P)
        requires { (rest : List Self) × fits (self ∷ rest) pipes.old left.old }
        ensures fits { (rest : List Self) → fits (self ∷ rest) pipes.old left.old → fits rest pipes.new left.new }
        ensures gave { (rest : List Self) (k : Keepers N) (p : P) → gave rest pipes.new left.new k p → gave (self ∷ rest) pipes.old left.old k p };

    ghost none_gave: { (k : Keepers N) (p : P) → gave [] k p k p };
}

/// Takes workers of one kind apart, one after another.
pub fn part_each<N: RunBrand, P, W: Apart<N, P>>(
    workers: Vec<W>,
    pipes: &mut Pipes<N>,
    left: &mut P,
)
    requires { W.fits workers.items pipes.old left.old }
    ensures { W.gave workers.items pipes.old left.old pipes.new left.new }
{
    let count = workers.len();
    let mut workers = Line::of(workers);
    for k in 0..count {
        workers.next().take_apart(pipes, left);
    }
    workers.destroy_empty();
}

/// The receivers' sources, and the shares with theirs.
#[derive(Drop)]
pub struct ReceiverParts<N: RunBrand, S> {
    pub sources: Vec<S>,
    pub shares: Vec<Share<N>>,
}

impl<N: RunBrand, S: Source> Apart<N, ReceiverParts<N, S>> for Receiver<N, S> {
    ghost use Rattle.run_report.specs.Parting.{ReceiversFit, ReceiversGave, no_receivers};

    ghost fits = { λ rs k p. ReceiversFit rs k p };

    ghost gave = { λ rs k p l q. ReceiversGave S.told rs k p l q };

    fn take_apart(self, pipes: &mut Pipes<N>, left: &mut ReceiverParts<N, S>) {
        let PartedReceiver {
            source,
            processors,
            free: _,
            share,
        } = self.into_parts();
        take_back(&mut pipes.packets, processors);
        left.sources.push_reserved(source);
        left.shares.push_reserved(share);
    }

    ghost none_gave = { λ k p. no_receivers S.told k p };
}

/// The processors' consumers, and the shares with theirs.
#[derive(Drop)]
pub struct ProcessorParts<N: RunBrand> {
    pub takers: Vec<Consumer<Packet<N>>>,
    pub shares: Vec<Share<N>>,
}

impl<N: RunBrand, G: Gate + Drop> Apart<N, ProcessorParts<N>> for Processor<N, G> {
    ghost use Rattle.run_report.specs.Parting.{ProcessorsFit, ProcessorsGave, no_processors};

    ghost fits = { λ ws k p. ProcessorsFit ws k p };

    ghost gave = { λ ws k p l q. ProcessorsGave ws k p l q };

    fn take_apart(self, pipes: &mut Pipes<N>, left: &mut ProcessorParts<N>) {
        let PartedProcessor {
            from,
            links,
            slow,
            free: _,
            share,
            gate: _,
        } = self.into_parts();
        left.takers.push_reserved(from.into_consumer());
        pipes.requests.absorb(slow.into_producer());
        take_back(&mut pipes.egress_packets, links);
        left.shares.push_reserved(share);
    }

    ghost none_gave = { λ k p. no_processors k p };
}

/// The slow path's consumer, and the shares with its own.
#[derive(Drop)]
pub struct SlowPathParts<N: RunBrand> {
    pub requests: Consumer<SlowPathRequest<N>>,
    pub shares: Vec<Share<N>>,
}

/// Takes the slow path and the controller's ends apart: the links' pipes take back both's.
pub fn part_slow_path<N: RunBrand>(
    slow: SlowPath<N>,
    shutters: Vec<Shutter<EgressPacket<N>>>,
    pipes: &mut Vec<Keeper<EgressPacket<N>>>,
    shares: Vec<Share<N>>,
) -> SlowPathParts<N>
    requires back { (ls : LinkRows) × (ss : List Shape) × HaveBack ls ss pipes.old.items × AreEndsOf (length ls) ss (senders slow.side.links) × AreEndsOf (length ls + 1) ss (shutter_ends shutters.items) }
    requires shares { length shares.items < vec_capacity shares }
    ensures back { (ls : LinkRows) (ss : List Shape) → HaveBack ls ss pipes.old.items → HaveBack (ls ++ (senders slow.side.links ∷ shutter_ends shutters.items ∷ [])) ss pipes.new.items }
    ensures taker { result.requests ≡ slow.taker }
    ensures shares { (result.shares.items ≡ shares.items ++ slow.side.share ∷ []) × (vec_capacity result.shares ≡ vec_capacity shares) }
    ensures kept { KeptSlowPath slow }
    ensures marking { AreMarking shutters.items }
{
    let mut shares = shares;
    let PartedSlowPath {
        from,
        links,
        free: _,
        share,
    } = slow.into_parts();
    take_back(pipes, links);
    take_back(pipes, shutters);
    shares.push_reserved(share);
    SlowPathParts {
        requests: from.into_consumer(),
        shares,
    }
}

/// The forwarders' consumers and sinks, how many each sink took, and the shares with theirs.
#[derive(Drop)]
pub struct ForwarderParts<N: RunBrand, K> {
    pub takers: Vec<Consumer<EgressPacket<N>>>,
    pub sinks: Vec<K>,
    pub sent: Vec<u128>,
    pub shares: Vec<Share<N>>,
}

impl<N: RunBrand, K: Sink> Apart<N, ForwarderParts<N, K>> for Forwarder<N, K> {
    ghost use Rattle.run_report.specs.Parting.{ForwardersFit, ForwardersGave, no_forwarders};

    ghost fits = { λ fs k p. ForwardersFit fs p };

    ghost gave = { λ fs k p l q. ForwardersGave K.told K.failed fs k p l q };

    fn take_apart(self, pipes: &mut Pipes<N>, left: &mut ForwarderParts<N, K>) {
        let _ = pipes;
        let PartedForwarder {
            sink,
            low,
            high,
            free: _,
            share,
        } = self.into_parts();
        left.takers.push_reserved(low);
        left.takers.push_reserved(high);
        left.sinks.push_reserved(sink);
        left.sent.push_reserved(share.forwarded());
        left.shares.push_reserved(share);
    }

    ghost none_gave = { λ k p. no_forwarders K.told K.failed k p };
}
