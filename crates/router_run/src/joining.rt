//! The workers stopped and joined.

ghost use Rattle.run_ends.specs.Shutting.{AreUnended, EachEnds};
ghost use Rattle.router_run.specs.Back.{IsBack};
ghost use Rattle.run_report.specs.Crew.{crew_in, crew_of};

use crate::threads::Threaded;
use packet_ledger::Book;
use run_ends::{Shutter, mark_all};
use run_pipes::{Controller, notify_all};
use run_report::Joined;
use std::rt::Clock;
use std::sync::Wait;
use std::thread::Threads;
use worker_parts::{EgressPacket, Gate, RunBrand, Sink, Source};
use worker_threads::{ThreadControl, join_all, join_worker};

// Marks the ends of the controller's pipes, and wakes the forwarders.
fn marked<N: RunBrand, R: Wait>(rt: &R, controller: Controller<N>) -> Vec<Shutter<EgressPacket<N>>>
    requires unmarked { AreUnended controller.shutters.items }
    ensures { EachEnds controller.shutters.items result.items }
{
    let Controller {
        shared: _,
        mut shutters,
        forwarder_events,
    } = controller;
    mark_all(rt, &mut shutters);
    notify_all(forwarder_events.as_slice());
    shutters
}

/// Stops the workers and joins them.
pub fn join_workers<N, S, K, G, R>(
    rt: &R,
    control: &ThreadControl<Book<N>>,
    controller: Controller<N>,
    threads: Threaded<N, S, K, G>,
) -> Joined<N, S, K, G>
where
    N: RunBrand,
    S: Source,
    K: Sink,
    G: Gate,
    R: Threads + Wait + Clock,
    requires unmarked { AreUnended controller.shutters.items }
    ensures { IsBack S.same K.same (crew_of threads.receivers threads.processors threads.slow.promise.0.value threads.forwarders controller.shutters.items) (crew_in result) }
{
    let Threaded {
        receivers,
        processors,
        slow,
        forwarders,
    } = threads;
    control.stop();
    let receivers = join_all(rt, receivers);
    let processors = join_all(rt, processors);
    let slow = join_worker(rt, slow);
    let shutters = marked(rt, controller);
    let forwarders = join_all(rt, forwarders);
    Joined {
        receivers,
        processors,
        slow,
        forwarders,
        shutters,
    }
}
