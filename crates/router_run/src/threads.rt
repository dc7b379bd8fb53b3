//! The workers over their devices, each in a thread of its own.

ghost use Rattle.std.specs.Prelude.{◌≡◌, length, true};
ghost use Rattle.order_laws.specs.Deeds.{Each};
ghost use Rattle.worker_order.specs.Heard.{ToldNothing};
ghost use Rattle.run_workers.specs.Kits.{forwardings, receivings};
ghost use Rattle.worker_threads.specs.Teams.{IsFor};

use packet_ledger::Book;
use run_workers::{Entering, Leaving, over_each};
use std::sync::Wait;
use std::thread::Threads;
use std::time::Clock;
use worker_forwarder::Forwarder;
use worker_parts::{Gate, RunBrand, Sink, Source};
use worker_processor::{Processor, SlowPath};
use worker_receiver::Receiver;
use worker_threads::{Handle, Started, Team, ThreadControl, give_up, start_each};

/// The threads of a router's workers.
pub struct Threaded<N, S, K, G>
where
    N: RunBrand,
    S: Source,
    K: Sink,
    G: Gate,
{
    pub receivers: Started<Receiver<N, S>>,
    pub processors: Started<Processor<N, G>>,
    pub slow: Handle<SlowPath<N>>,
    pub forwarders: Started<Forwarder<N, K>>,
}

/// Threads for the receivers over their sources, and for the processors, and whether all are there.
pub fn start_front<N, S, G, R>(
    rt: R,
    receivers: Vec<Entering<N>>,
    processors: Vec<Processor<N, G>>,
    sources: Vec<S>,
    receiving: Team<Book<N>, Receiver<N, S>>,
    working: Team<Book<N>, Processor<N, G>>,
) -> (Started<Receiver<N, S>>, Started<Processor<N, G>>, bool)
where
    N: RunBrand + Send + Sync + 'static,
    S: Source + Send + Drop + 'static,
    G: Gate + Send + Sync + Drop + 'static,
    R: Threads + Wait + Clock + Copy + Send + 'static,
    requires count { length sources.items ≡ length receivers.items }
    requires untold { Each (λ s. ToldNothing (S.told s)) sources.items }
    requires receiving { IsFor (length receivers.items) receiving }
    requires working { IsFor (length processors.items) working }
    ensures { result.2 ≡ true → (result.0 ≡ receivings receivers.items sources.items) × (result.1 ≡ processors.items) }
{
    working.workers.destroy_empty();
    let receivers = over_each(receivers, sources, receiving.workers);
    let receivers = Team {
        workers: receivers,
        control: receiving.control,
        room: receiving.room,
    };
    let processors = Team {
        workers: processors,
        control: working.control,
        room: working.room,
    };
    let (receivers, are_all) = start_each(rt, receivers, true);
    let (processors, are_all) = start_each(rt, processors, are_all);
    (receivers, processors, are_all)
}

/// Threads for the forwarders over their sinks, where those before them are all there, and whether these are too.
pub fn start_rear<N, K, R>(
    rt: R,
    so_far: bool,
    forwarders: Vec<Leaving<N>>,
    sinks: Vec<K>,
    forwarding: Team<Book<N>, Forwarder<N, K>>,
) -> (Started<Forwarder<N, K>>, bool)
where
    N: RunBrand + Send + Sync + 'static,
    K: Sink + Send + Drop + 'static,
    R: Threads + Wait + Clock + Copy + Send + 'static,
    requires count { length sinks.items ≡ length forwarders.items }
    requires untold { Each (λ k. ToldNothing (K.told k)) sinks.items }
    requires forwarding { IsFor (length forwarders.items) forwarding }
    ensures { result.1 ≡ true → (so_far ≡ true) × (result.0 ≡ forwardings K.failed forwarders.items sinks.items) }
{
    let forwarders = over_each(forwarders, sinks, forwarding.workers);
    let forwarders = Team {
        workers: forwarders,
        control: forwarding.control,
        room: forwarding.room,
    };
    let (forwarders, are_all) = start_each(rt, forwarders, so_far);
    (forwarders, are_all)
}

/// Tells all threads to give up, and joins those that are there.
pub fn give_up_all<N, S, K, G, R>(
    rt: &R,
    control: &ThreadControl<Book<N>>,
    receivers: Started<Receiver<N, S>>,
    processors: Started<Processor<N, G>>,
    forwarders: Started<Forwarder<N, K>>,
)
where
    N: RunBrand,
    S: Source + Drop,
    K: Sink + Drop,
    G: Gate + Drop,
    R: Threads + Wait,
{
    give_up(rt, control, receivers);
    give_up(rt, control, processors);
    give_up(rt, control, forwarders);
}
