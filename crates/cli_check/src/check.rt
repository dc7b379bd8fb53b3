//! The command.

ghost use Rattle.std.specs.Prelude.{◌≡◌, ◌&&◌, ℕ, None, Some, Ok, Err, true, false};
ghost use Rattle.cli_check.specs.Check.{GivesConfig, Tells};
ghost use Rattle.cli_faults.specs.declared.fault.Fault.TheVariants as fault;
ghost use Rattle.cli_run.specs.declared.fault.RunFault.TheVariants.{Socket};
ghost use Rattle.router_config.specs.Config.{values_of};

use crate::sockets::open_each;
use crate::words::tell_warnings;
use cli_faults::Fault;
use cli_run::RunFault;
use process_packet::Config;
use router_config::{ConfigFault, fault_words, read_config};
use std::alloc::Global;
use std::fs;
use std::net::Net;
use std::rt::{Clock, Files};
use std::thread::Threads;

/// The fault of a text that is no configuration, with its words where there is memory for them.
fn told(alloc: Global, fault: ConfigFault, text: &str) -> Fault
    ensures { Tells fault result }
{
    match (fault, fault_words(alloc, text)) {
        (ConfigFault::Memory, _) => Fault::Config(fault),
        (_, Ok(Some(words))) => Fault::Told(fault, words),
        _ => Fault::Config(fault),
    }
}

/// The configuration that a text is. The fault of one that is none has its words.
pub fn config_of(alloc: Global, text: &str) -> Result<Config, Fault>
    ensures { GivesConfig result (values_of text.now) }
{
    match read_config(alloc, text) {
        Ok(config) => Ok(config),
        Err(fault) => Err(told(alloc, fault, text)),
    }
}

/// What comes of a check of a good configuration: the first socket that can't be had is a fault, and where
/// warnings are faults, so are they.
fn verdict_of(refused: Option<u16>, is_warned: bool, strict: bool) -> Result<(), Fault>
    ensures socket { (link : ℕ) → refused ≡ Some link → result ≡ Err (fault.Run (Socket link)) }
    ensures warned { refused ≡ None → (is_warned && strict) ≡ true → result ≡ Err fault.Warned }
    ensures good { refused ≡ None → (is_warned && strict) ≡ false → result ≡ Ok tt }
{
    match refused {
        Some(link) => Err(Fault::Run(RunFault::Socket(link))),
        None => {
            if is_warned && strict {
                Err(Fault::Warned)
            } else {
                Ok(())
            }
        }
    }
}

/// The first link whose socket can't be had, where the sockets are to be opened.
fn refused_by<R>(rt: &R, config: &Config, bind: bool) -> Result<Option<u16>, Fault>
where
    R: Eprint + AllocGlobal + Net + Clock + Copy + Drop,
{
    if bind {
        open_each(rt, config)
    } else {
        Ok(None)
    }
}

/// Tells whether the configuration in a file is good, by `ok`, and else where it isn't.
///
/// A line on standard error tells of each thing in a good configuration that will hurt; where `strict`, they
/// are a fault. Where `bind`, its sockets are opened and closed again; a line on standard error tells of each
/// that can't be had why, and the first of them is the fault.
pub fn check_config<R>(rt: &R, path: &str, strict: bool, bind: bool) -> Result<(), Fault>
where
    R: Files + Print + Eprint + AllocGlobal + Net + Threads + Clock + Copy + Drop,
{
    let text = fs::read_to_string(rt, path).map_err(Fault::of_unread)?;
    let config = config_of(rt.alloc(), text.as_str())?;
    let is_warned = tell_warnings(rt, &config, text.as_str())?;
    let refused = refused_by(rt, &config, bind)?;
    verdict_of(refused, is_warned, strict)?;
    println!(rt; "ok").map_err(Fault::of_output)
}
