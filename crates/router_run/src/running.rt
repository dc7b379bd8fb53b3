//! A router: started by one call, ended by another.

ghost use Rattle.std.specs.Prelude.{◌≡◌, ◌+◌, ◌*◌, ◌≤◌, ℕ, IfSome, MatchBool, MatchResult, Some, length};
ghost use Rattle.std.specs.Arc.{arc_value};
ghost use Rattle.order_laws.specs.Deeds.{Each};
ghost use Rattle.packet_ledger.specs.Amounts.{count_at};
ghost use Rattle.worker_order.specs.Heard.{ToldNothing};
ghost use Rattle.router_rules.specs.Links.{link_count};
ghost use Rattle.run_pipes.specs.Closing.{Closing};
ghost use Rattle.router_run.specs.Run.{RouterHasRun, IsSameRun, SentWithin};
ghost use Rattle.router_run.specs.Prepared.{IsPrepared};
ghost use Rattle.router_run.specs.Starting.{Begins, GivesBack, IsOneALink};

use crate::bare_workers::BareWorkers;
use crate::fault::StartFault;
use crate::joining::join_workers;
use crate::preparing::{Base, Prepared, prepare};
use crate::threads::{Threaded, give_up_all, start_front, start_rear};
use packet_ledger::{Blank, Book, Look};
use process_packet::Config;
use router_rules::{causes_are_apart, link_count, links_stand_in_order, rules_are_lawful};
use ruled_pipe::Producer;
use run_pipes::{CloseFault, Controller, Events, Pipes};
use run_report::{Report, Space, part_all, report_of};
use run_workers::Common;
use std::alloc::{AllocError, Global};
use std::marker::Model;
use std::rt::Clock;
use std::sync::{Arc, Wait};
use std::thread::Threads;
use worker_forwarder::Forwarder;
use worker_parts::{Buffer, Event, Gate, RunBrand, Sink, Source};
use worker_processor::Processor;
use worker_receiver::Receiver;
use worker_threads::{ThreadControl, start_worker};

/// A running router. It has no `Drop`: it can only be finished. Contracts see its configuration, its pipes,
/// the ends that filled those of free buffers, and its workers and the controller's ends as they began.
pub struct Running<N, S, K, G, R>
where
    N: RunBrand,
    S: Source,
    K: Sink,
    G: Gate,
{
    rt: R,
    controller: Controller<N>,
    control: ThreadControl<Book<N>>,
    threads: Threaded<N, S, K, G>,
    pipes: Pipes<N>,
    fillers: Vec<Producer<Buffer>>,
    space: Space<N, S, K>,
}

impl<N, S, K, G, R> Model for Running<N, S, K, G, R>
where
    N: RunBrand,
    S: Source,
    K: Sink,
    G: Gate,
{
    ghost use Rattle.std.specs.Arc.{arc_value};
    ghost use Rattle.run_pipes.specs.Pipes.{piping_of};
    ghost use Rattle.router_run.specs.Prepared.{IsRunning};
    ghost use Rattle.router_run.specs.Run.{Run};
    ghost use Rattle.run_report.specs.Crew.{crew_of};

    ghost Value = { Run S G K };

    ghost view = { λ r. record { config = (arc_value r.controller.shared).config; pipes = piping_of r.pipes; fillers = r.fillers.items; crew = crew_of r.threads.receivers r.threads.processors r.threads.slow.promise.0.value r.threads.forwarders r.controller.shutters.items } };

    ghost invariant = { λ r. IsRunning N.workers (arc_value r.controller.shared).config r.pipes (crew_of r.threads.receivers r.threads.processors r.threads.slow.promise.0.value r.threads.forwarders r.controller.shutters.items) r.space };
}

// Whether there is one source and one sink a link.
fn is_one_a_link<S, K>(config: &Config, sources: &Vec<S>, sinks: &Vec<K>) -> bool
    ensures { MatchBool result (IsOneALink (link_count config.now) sources.now.items sinks.now.items) (IsOneALink (link_count config.now) sources.now.items sinks.now.items → ⊥) }
{
    let links = link_count(config);
    sources.len() == links && sinks.len() == links
}

/// Starts a router with this configuration: one thread a worker, over one source and one sink a link,
/// in ascending order of the links' interfaces, that of the internal network, 0, first.
pub fn start<N, S, K, G, R>(
    rt: R,
    alloc: Global,
    blank: Blank,
    config: Config,
    sources: Vec<S>,
    sinks: Vec<K>,
    gate: G,
) -> Result<Running<N, S, K, G, R>, StartFault<S, K>>
where
    N: RunBrand + Send + Sync + 'static,
    S: Source + Send + Drop + 'static,
    K: Sink + Send + Drop + 'static,
    G: Gate + Send + Sync + Drop + 'static,
    R: Threads + Wait + Clock + Copy + Send + 'static,
    requires name { blank.table ≡ N.table }
    requires config { N.config ≡ Some config }
    requires workers { N.workers ≡ 2 * link_count config + config.processors + 1 }
    requires sources { Each (λ s. ToldNothing (S.told s)) sources.items }
    requires sinks { Each (λ k. ToldNothing (K.told k)) sinks.items }
    ensures { MatchResult result (λ r. Begins K.failed config sources.items sinks.items r) (λ f. GivesBack (link_count config) f sources.items sinks.items) }
{
    if !is_one_a_link(&config, &sources, &sinks) {
        return Err(StartFault::Count { sources, sinks });
    }
    match prepare(&rt, alloc, blank, config, gate) {
        Ok(prepared) => run(rt, prepared, sources, sinks),
        Err(_) => Err(StartFault::NoMemory { sources, sinks }),
    }
}

// What the controller keeps of the events.
fn of_forwarders(events: Events) -> Vec<Event> {
    events.forwarders
}

// The workers over their devices, each in a thread of its own.
fn run<N, S, K, G, R>(
    rt: R,
    prepared: Prepared<N, G, Receiver<N, S>, Processor<N, G>, Forwarder<N, K>, S, K>,
    sources: Vec<S>,
    sinks: Vec<K>,
) -> Result<Running<N, S, K, G, R>, StartFault<S, K>>
where
    N: RunBrand + Send + Sync + 'static,
    S: Source + Send + Drop + 'static,
    K: Sink + Send + Drop + 'static,
    G: Gate + Send + Sync + Drop + 'static,
    R: Threads + Wait + Clock + Copy + Send + 'static,
    requires prepared { IsPrepared (arc_value prepared.base.common.shared).config prepared.bare_workers prepared.teams.receivers prepared.teams.processors prepared.teams.forwarders prepared.space }
    requires workers { N.workers ≡ 2 * link_count (arc_value prepared.base.common.shared).config + (arc_value prepared.base.common.shared).config.processors + 1 }
    requires sources { Each (λ s. ToldNothing (S.told s)) sources.items × (length sources.items ≡ link_count (arc_value prepared.base.common.shared).config) }
    requires sinks { Each (λ k. ToldNothing (K.told k)) sinks.items × (length sinks.items ≡ link_count (arc_value prepared.base.common.shared).config) }
    ensures { MatchResult result (λ r. Begins K.failed (arc_value prepared.base.common.shared).config sources.items sinks.items r) (λ f. f ≡ StartFault.Thread) }
{
    let Prepared {
        base,
        bare_workers,
        teams,
        space,
    } = prepared;
    let Base { common, control } = base;
    let Common {
        shared,
        stop: _,
        events,
    } = common;
    let BareWorkers {
        receivers,
        processors,
        slow,
        forwarders,
        shutters,
        pipes,
        fillers,
    } = bare_workers;
    let controller = Controller {
        shared,
        shutters,
        forwarder_events: of_forwarders(events),
    };
    let (receivers, processors, are_all) = start_front(
        rt,
        receivers,
        processors,
        sources,
        teams.receivers,
        teams.processors,
    );
    let (forwarders, are_all) = start_rear(rt, are_all, forwarders, sinks, teams.forwarders);
    if are_all {
        if let Some(slow) = start_worker(rt, teams.slow, slow) {
            control.run();
            let threads = Threaded {
                receivers,
                processors,
                slow,
                forwarders,
            };
            return Ok(Running {
                rt,
                controller,
                control,
                threads,
                pipes,
                fillers,
                space,
            });
        }
    }
    give_up_all(&rt, &control, receivers, processors, forwarders);
    drop(pipes);
    drop(fillers);
    drop(space);
    Err(StartFault::Thread)
}

impl<N, S, K, G, R> Running<N, S, K, G, R>
where
    N: RunBrand,
    S: Source,
    K: Sink,
    G: Gate + Drop,
    R: Threads + Wait + Clock + Copy,
{
    /// Closes the link with an interface: its forwarder sends nothing that comes after the closing marks.
    /// With two bands each has a mark of its own, and each missing one is tried, the high band's first. At
    /// `Full` one was refused, since its pipe was full; a mark that was pushed stays. It takes no memory.
    pub fn close_link(&mut self, link: u16) -> Result<(), CloseFault>
        ensures closing { Closing self.old.config link result self.old.crew.shutters self.new.crew.shutters }
        ensures same { IsSameRun self.old self.new }
    {
        self.controller.close(&self.rt, link)
    }

    /// The book into which the workers post, for those who look at it. At `Err` there are too many
    /// already.
    pub fn book(&self) -> Result<Arc<Book<N>, Global>, AllocError> {
        Arc::try_clone(&self.control.book)
    }

    /// Ends the router: the workers come to their ends and are joined, and the pipes settled. It
    /// takes no memory. The totals are no less than a look at its book saw of them, and what each link sent
    /// is no less than its forwarder's row showed.
    pub fn finish(self, look: Option<Look<N>>) -> Report<S, K>
        ensures run { RouterHasRun S.told K.told K.failed S.same K.same self result.totals result.sent.items result.sources.items result.sinks.items }
        ensures seen { IfSome look (λ l. (i : ℕ) → count_at i l.totals ≤ count_at i result.totals) }
        ensures rows { IfSome look (λ l. SentWithin self.config l result.sent.items) }
    {
        rules_are_lawful();
        links_stand_in_order();
        causes_are_apart();
        let Running {
            rt,
            controller,
            control,
            threads,
            mut pipes,
            fillers: _,
            space,
        } = self;
        let joined = join_workers(&rt, &control, controller, threads);
        let (takers, left) = part_all(joined, space, &mut pipes);
        pipes.settle(takers.packets, takers.requests, takers.egress_packets);
        report_of(&rt, &control.book, left, look)
    }
}
