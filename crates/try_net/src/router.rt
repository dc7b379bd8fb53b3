//! A router over its sockets, started and ended.

ghost use Rattle.try_net.specs.Naming.{IsNamed};

use cli_run::push_run_report;
use packet_ledger::Blank;
use path_trial::config_at;
use process_packet::Config;
use router_rules::{Worker, interface_at, link_count};
use router_run::{Report, Running, start};
use std::alloc::{AllocError, Global};
use std::io;
use std::marker::Model;
use std::net::Net;
use std::rt::{Clock, Files};
use std::sync::Wait;
use std::thread::Threads;
use udp_devices::{Devices, UdpSink, UdpSource, bind_links};
use worker_parts::{Gate, RunBrand};

/// Holds no packet back.
#[derive(Drop)]
struct Open;

impl Model for Open {
    ghost use Rattle.std.specs.Prelude.{⊤};

    ghost Value = { ⊤ };

    ghost view = { λ gate. tt };
}

impl Gate for Open {
    ghost use Rattle.std.specs.Prelude.{◌≡◌, true};

    ghost answers = { λ gate worker link number admitted. admitted ≡ true };

    fn admits(&self, _worker: Worker, _link: u16, _number: u64) -> bool {
        true
    }
}

/// What a router is started from: its configuration with its sockets, a new book, and the interfaces of its links,
/// ascending.
#[derive(Drop)]
pub struct Plan<R: Clock + Drop> {
    pub config: Config,
    pub blank: Blank,
    links: Vec<u16>,
    devices: Devices<R>,
}

/// The interfaces of the links, ascending.
fn interfaces_of(alloc: Global, config: &Config) -> Result<Vec<u16>, AllocError> {
    let mut interfaces = Vec::new(alloc);
    for index in 0..link_count(config) {
        interfaces.push(interface_at(config, index))?;
    }
    Ok(interfaces)
}

/// The plan of a router with the configuration that a file holds. Its sockets are bound.
pub fn plan_of<R>(rt: &R, file: &str) -> io::Result<Plan<R>>
where
    R: Files + Net + Clock + AllocGlobal + Copy + Drop,
{
    let alloc = rt.alloc();
    let config = config_at(rt, file)?;
    let links = interfaces_of(alloc, &config)?;
    let blank = Blank::new(alloc)?;
    match bind_links(rt, alloc, &config) {
        Ok(devices) => Ok(Plan {
            config,
            blank,
            links,
            devices,
        }),
        Err(_) => Err(io::Error::other("a router's sockets can't be had")),
    }
}

/// A router that runs, if it could be started, and the interfaces of its links. It has no `Drop`: it is to be ended.
pub struct Started<N, R>
where
    N: RunBrand,
    R: Clock + Drop,
{
    links: Vec<u16>,
    running: Option<Running<N, UdpSource<R>, UdpSink, Open, R>>,
}

/// Starts the router of a plan.
pub fn start_router<N, R>(rt: R, alloc: Global, plan: Plan<R>) -> Started<N, R>
where
    N: RunBrand + Send + Sync + 'static,
    R: Threads + Wait + Clock + Copy + Send + Drop + 'static,
    requires { IsNamed N.table N.workers N.config plan.blank.table plan.config }
{
    let Plan {
        config,
        blank,
        links,
        devices,
    } = plan;
    let Devices { sources, sinks } = devices;
    let started = start::<N, UdpSource<R>, UdpSink, Open, R>(
        rt, alloc, blank, config, sources, sinks, Open,
    );
    match started {
        Ok(running) => Started {
            links,
            running: Some(running),
        },
        Err(_) => Started {
            links,
            running: None,
        },
    }
}

/// Prints a router's report under its name.
fn print_report<R: Print>(rt: &R, name: &str, report: &[u8]) -> io::Result<()> {
    println!(rt; "router {name}:")?;
    let Ok(text) = str::from_utf8(report) else {
        return Err(io::Error::from(io::ErrorKind::InvalidData));
    };
    for line in text.lines() {
        println!(rt; "    {line}")?;
    }
    Ok(())
}

/// Ends a router, and prints its report under a name.
pub fn end_router<N, R>(rt: &R, name: &str, router: Started<N, R>) -> io::Result<()>
where
    N: RunBrand,
    R: Threads + Wait + Clock + Print + AllocGlobal + Copy + Drop,
{
    let Started { links, running } = router;
    match running {
        Some(running) => {
            let Report { totals, sent, .. } = running.finish(None);
            let mut text = Vec::new(rt.alloc());
            push_run_report(&mut text, links.as_slice(), sent.as_slice(), &totals)?;
            print_report(rt, name, text.as_slice())
        }
        None => Err(io::Error::other("a router can't be started")),
    }
}
