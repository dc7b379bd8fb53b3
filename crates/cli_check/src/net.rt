//! The command over several configurations.

ghost use Rattle.std.specs.Prelude.{◌≡◌, IfErr, IfOk, Ok, map, string_bytes};
ghost use Rattle.cli_check.specs.Net.{Tells, TellsFirst, fault_of};
ghost use Rattle.net_laws.specs.Net.{Agrees, net_of};

use crate::check::config_of;
use cli_faults::Fault;
use net_check::{is_wired, net_of_configs, open_words, words_of};
use net_laws::{End, Misfit, Net, misfit_of};
use process_packet::Config;
use router_config::ConfigFault;
use std::alloc::{AllocError, Global};
use std::fs;
use std::rt::Files;

/// The fault of a net in words, if there was memory for them.
fn fault_of(words: Result<String, AllocError>) -> Fault
    ensures { result ≡ fault_of words }
{
    match words {
        Ok(words) => Fault::Net(words),
        Err(_) => Fault::Memory,
    }
}

/// The fault of a file, with its name.
fn in_file(alloc: Global, name: &str, fault: Fault) -> Fault {
    match fault {
        Fault::Memory | Fault::Config(ConfigFault::Memory) => Fault::Memory,
        other => fault_of(format!(in alloc; "{name}: {other}")),
    }
}

/// The configuration that a file holds.
fn config_in<R: Files + AllocGlobal>(rt: &R, name: &str) -> Result<Config, Fault> {
    let text = match fs::read_to_string(rt, name) {
        Ok(text) => text,
        Err(error) => return Err(in_file(rt.alloc(), name, Fault::of_unread(error))),
    };
    match config_of(rt.alloc(), text.as_str()) {
        Ok(config) => Ok(config),
        Err(fault) => Err(in_file(rt.alloc(), name, fault)),
    }
}

/// The configurations that these files hold.
fn configs_in<R: Files + AllocGlobal>(rt: &R, names: &[String]) -> Result<Vec<Config>, Fault> {
    let mut configs = Vec::new(rt.alloc());
    for name in names {
        configs.push(config_in(rt, name.as_str())?)?;
    }
    Ok(configs)
}

/// Whether one of these names is this one.
fn is_among(names: &[String], name: &str) -> bool {
    names.iter().any(|other| other.as_str() == name)
}

/// Refuses a file that is named twice.
fn refuse_repeated(alloc: Global, names: &[String]) -> Result<(), Fault> {
    for (place, name) in names.iter().enumerate() {
        if is_among(&names[..place], name.as_str()) {
            return Err(fault_of(format!(in alloc; "{name} is named twice")));
        }
    }
    Ok(())
}

/// The fault of a net in which this doesn't fit.
fn told(alloc: Global, net: &Net, names: &[String], misfit: Misfit) -> Fault
    ensures { Tells net.now (map string_bytes names.now) misfit result }
{
    fault_of(words_of(alloc, net, names, misfit))
}

/// What comes of a check of a net: good where it agrees, and nowhere else; else its first misfit is told.
fn verdict_of_net(alloc: Global, net: &Net, names: &[String]) -> Result<(), Fault>
    ensures good { IfOk result (λ _. Agrees (net_of net.now)) }
    ensures only { Agrees (net_of net.now) → result ≡ Ok tt }
    ensures told { IfErr result (TellsFirst net.now (map string_bytes names.now)) }
{
    match misfit_of(net) {
        Some(misfit) => Err(told(alloc, net, names, misfit)),
        None => Ok(()),
    }
}

/// Tells of each link of a router that no wire leads from.
fn tell_open<R: Eprint + AllocGlobal>(
    rt: &R,
    net: &Net,
    router: usize,
    name: &str,
) -> Result<(), Fault> {
    let Some(config) = net.configs.get(router) else {
        return Ok(());
    };
    for link in config.links.iter() {
        let end = End {
            router,
            link: link.id,
        };
        if !is_wired(net, &end) {
            let Ok(words) = open_words(rt.alloc(), name, link) else {
                return Err(Fault::Memory);
            };
            let _ = eprintln!(rt; "open: {words}");
        }
    }
    Ok(())
}

/// Tells of each link of the net that no wire leads from.
fn tell_all_open<R: Eprint + AllocGlobal>(
    rt: &R,
    net: &Net,
    names: &[String],
) -> Result<(), Fault> {
    for (router, name) in names.iter().enumerate() {
        tell_open(rt, net, router, name.as_str())?;
    }
    Ok(())
}

/// Tells whether the routers of the configurations in these files fit one another, by `ok`, and else what the first
/// thing is that doesn't fit.
///
/// A line on standard error tells of each link of a good net whose other end is in none of the files.
pub fn check_net<R>(rt: &R, names: &[String]) -> Result<(), Fault>
where
    R: Files + Print + Eprint + AllocGlobal,
{
    refuse_repeated(rt.alloc(), names)?;
    let configs = configs_in(rt, names)?;
    let Ok(net) = net_of_configs(rt.alloc(), configs) else {
        return Err(Fault::Memory);
    };
    verdict_of_net(rt.alloc(), &net, names)?;
    tell_all_open(rt, &net, names)?;
    println!(rt; "ok").map_err(Fault::of_output)
}
