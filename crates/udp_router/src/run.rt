//! `router run`: a router over its sockets.

ghost use Rattle.std.specs.Prelude.{◌≡◌, ◌≤◌, ◌+◌, ◌*◌, ◌⊎◌, IfErr, IfOk, IfSome, Some, length};
ghost use Rattle.cli_io.specs.Lines.{lines_of};
ghost use Rattle.router_rules.specs.Links.{link_count};
ghost use Rattle.udp_router.specs.Run.{ComesFirst, IsFault, IsNew, Runs, ascending, new_sinks, new_sources};
ghost use Rattle.cli_run.specs.declared.fault.RunFault.TheVariants as fault;

use crate::over_udp::{Open, OverUdp};
use crate::showing::{Listening, Metrics, ShowFault, Showing, listen};
use cli_io::LinesFault;
use cli_run::{RunFault, run_lines};
use packet_ledger::Blank;
use process_packet::Config;
use router_rules::{interface_at, link_count};
use router_run::{Running, StartFault, start};
use std::alloc::{AllocError, Global};
use std::io::{BufRead, Write};
use std::marker::Brand;
use std::net::{Net, TcpListener, TcpStream};
use std::rt::Clock;
use std::sync::Wait;
use std::thread::Threads;
use udp_devices::{BindFault, Devices, UdpSink, UdpSource, bind_links};
use worker_parts::RunBrand;

/// The fault where no memory is left for the engine itself.
const LACK: RunFault = RunFault::Lines(LinesFault::Memory);

/// The interfaces of the links, ascending.
fn interfaces_of(alloc: Global, config: &Config) -> Result<Vec<u16>, AllocError>
    ensures { IfOk result (λ ids. ids.items ≡ ascending config.now) }
{
    let mut interfaces = Vec::new(alloc);
    for index in 0..link_count(config) {
        interfaces.push(interface_at(config, index))?;
    }
    Ok(interfaces)
}

/// What it means that sockets can't be had.
fn unbound(fault: BindFault) -> RunFault
    ensures { result ≡ Rattle.udp_router.specs.Run.unbound fault }
{
    match fault {
        BindFault::Socket(link) => RunFault::Socket(link),
        BindFault::Memory => LACK,
    }
}

/// What it means that the router wasn't started.
fn unstarted<S: Drop, K: Drop>(fault: StartFault<S, K>) -> RunFault
    ensures { result ≡ Rattle.udp_router.specs.Run.unstarted fault }
{
    match fault {
        StartFault::NoMemory { .. } => RunFault::NoMemory,
        StartFault::Count { .. } => RunFault::Count,
        StartFault::Thread => RunFault::Thread,
    }
}

/// What it means that the counts can't be shown.
fn unshown(why: ShowFault) -> RunFault
    ensures { (result ≡ fault.NoMemory) ⊎ (result ≡ fault.Thread) }
{
    match why {
        ShowFault::NoMemory => RunFault::NoMemory,
        ShowFault::Thread => RunFault::Thread,
    }
}

/// Shows the counts of a running router, where they are to be shown.
fn show<N, R>(
    rt: R,
    alloc: Global,
    running: &Running<N, UdpSource<R>, UdpSink, Open, R>,
    links: &[u16],
    listening: Option<Listening>,
) -> Result<Option<Showing<N, R>>, RunFault>
where
    N: RunBrand + Send + Sync + 'static,
    R: Threads + Wait + Clock + Copy + Send + Drop + 'static,
    requires { length links.now ≤ N.workers }
    ensures { IfErr result (λ e. (e ≡ fault.NoMemory) ⊎ (e ≡ fault.Thread)) }
{
    let Some(listening) = listening else {
        return Ok(None);
    };
    let Ok(book) = running.book() else {
        return Err(RunFault::NoMemory);
    };
    match Showing::begin(rt, alloc, book, links, listening) {
        Ok(showing) => Ok(Some(showing)),
        Err(fault) => Err(unshown(fault)),
    }
}

/// Leads a running router by what is read, and shows its counts meanwhile, where they are to be
/// shown.
fn lead<N, R, I: BufRead, O: Write>(
    rt: R,
    alloc: Global,
    running: Running<N, UdpSource<R>, UdpSink, Open, R>,
    listening: Option<Listening>,
    links: &[u16],
    reader: &mut I,
    writer: &mut O,
) -> Result<(), RunFault>
where
    N: RunBrand + Send + Sync + 'static,
    R: Threads + Wait + Clock + Copy + Send + Drop + 'static,
    requires new { IsNew running.config running }
    requires workers { N.workers ≡ 2 * link_count running.config + running.config.processors + 1 }
    requires links { links.now ≡ ascending running.config }
    ensures ran { IfSome (I.remaining reader.old) (λ input.
        Runs running.config result (lines_of input) (O.contents writer.old) (O.contents writer.new)) }
    ensures fault { IfErr result (IsFault running.config) }
    ensures untouched { IfErr result (λ e. ComesFirst e → (reader.new ≡ reader.old) × (writer.new ≡ writer.old)) }
{
    match show(rt, alloc, &running, links, listening) {
        Ok(showing) => {
            let router = OverUdp::of(rt, running, showing);
            match run_lines(alloc, links, router, reader, writer) {
                Ok(()) => Ok(()),
                Err(fault) => Err(RunFault::Lines(fault)),
            }
        }
        Err(fault) => {
            let _ = running.finish(None);
            Err(fault)
        }
    }
}

/// Opens the socket at which the counts are to be shown, if they are.
fn listening_for<R>(rt: &R, metrics: Option<Metrics>) -> Result<Option<Listening>, RunFault>
where
    R: Net<Listener = TcpListener, Stream = TcpStream>,
    ensures { IfErr result (λ e. e ≡ fault.Metrics) }
{
    let Some(metrics) = metrics else {
        return Ok(None);
    };
    match listen(rt, metrics) {
        Some(listening) => Ok(Some(listening)),
        None => Err(RunFault::Metrics),
    }
}

/// Opens the socket of the counts, starts the router over these devices, and leads it by what is
/// read.
fn start_and_lead<N, R, I: BufRead, O: Write>(
    rt: R,
    alloc: Global,
    blank: Blank,
    config: Config,
    devices: Devices<R>,
    metrics: Option<Metrics>,
    links: &[u16],
    reader: &mut I,
    writer: &mut O,
) -> Result<(), RunFault>
where
    N: RunBrand + Send + Sync + 'static,
    R: Net<Listener = TcpListener, Stream = TcpStream>
        + Threads
        + Wait
        + Clock
        + Copy
        + Send
        + Drop
        + 'static,
    requires name { blank.table ≡ N.table }
    requires config { N.config ≡ Some config }
    requires workers { N.workers ≡ 2 * link_count config + config.processors + 1 }
    requires sources { devices.sources.items ≡ new_sources config }
    requires sinks { devices.sinks.items ≡ new_sinks config }
    requires links { links.now ≡ ascending config }
    ensures ran { IfSome (I.remaining reader.old) (λ input.
        Runs config result (lines_of input) (O.contents writer.old) (O.contents writer.new)) }
    ensures fault { IfErr result (IsFault config) }
    ensures untouched { IfErr result (λ e. ComesFirst e → (reader.new ≡ reader.old) × (writer.new ≡ writer.old)) }
{
    let listening = listening_for(&rt, metrics)?;
    let Devices { sources, sinks } = devices;
    match start::<N, UdpSource<R>, UdpSink, Open, R>(
        rt, alloc, blank, config, sources, sinks, Open,
    ) {
        Ok(running) => lead(rt, alloc, running, listening, links, reader, writer),
        Err(fault) => Err(unstarted(fault)),
    }
}

/// Runs a router with this configuration over its sockets: binds one at the internal address and
/// one at each link's own, starts the workers, writes `ready`, and does what each line tells, until
/// a line tells to end or none is left; then it ends the router and writes its report. Meanwhile a
/// further thread may show its counts over HTTP, which has no part in what it does.
///
/// Nothing is read or written before the router runs. Where the reader or the writer fails from then on, or
/// no memory is left, the router is ended, and no report is written.
pub fn run_router<R, I: BufRead, O: Write>(
    rt: R,
    alloc: Global,
    config: Config,
    metrics: Option<Metrics>,
    reader: &mut I,
    writer: &mut O,
) -> Result<(), RunFault>
where
    R: Net<Listener = TcpListener, Stream = TcpStream>
        + Threads
        + Wait
        + Clock
        + Copy
        + Send
        + Drop
        + 'static,
    ensures ran { IfSome (I.remaining reader.old) (λ input.
        Runs config result (lines_of input) (O.contents writer.old) (O.contents writer.new)) }
    ensures fault { IfErr result (IsFault config) }
    ensures untouched { IfErr result (λ e. ComesFirst e → (reader.new ≡ reader.old) × (writer.new ≡ writer.old)) }
{
    let Ok(links) = interfaces_of(alloc, &config) else {
        return Err(LACK);
    };
    let Ok(blank) = Blank::new(alloc) else {
        return Err(LACK);
    };
    match bind_links(&rt, alloc, &config) {
        Ok(devices) => start_and_lead::<Brand, R, I, O>(
            rt,
            alloc,
            blank,
            config,
            devices,
            metrics,
            links.as_slice(),
            reader,
            writer,
        ),
        Err(fault) => Err(unbound(fault)),
    }
}
