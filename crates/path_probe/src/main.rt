//! Tries a path between two hosts of this machine, over an AS, its core AS and another AS. It sends a beacon each way
//! over each link, and an answer to it; then, as ping and traceroute do, one packet, and asks the router at each
//! interface of the path for an answer.
//!
//! `path_probe FROM TO FIRST CORE CORE LAST`: the addresses of the two hosts, and the configurations of the
//! routers by which the packet leaves the first AS, enters and leaves the core AS, and enters the last one; of
//! each its first link is used. The hosts are the control services of their ASes, and the core AS has one too. The
//! hop fields are made with the ASes' keys as beacons make them.
#![tactic(auto)]

ghost use Rattle.std.specs.Prelude.{◌≡◌, ◌≢◌, length, false};

use path_trial::probe_of;
use std::net::Net;
use std::process::ExitCode;
use std::rt::{Clock, Env, Files};
use std::{env, io};

/// The words after the program's name.
fn words_of<R: Env + AllocGlobal>(rt: &R) -> io::Result<Vec<String>> {
    Ok(env::args(rt)?.skip(1).collect(rt.alloc())?)
}

/// Whether the words ask for help: one word alone does.
fn asks_for_help(words: &[String]) -> bool
    ensures { length words.now ≢ 1 → result ≡ false }
{
    let is_one = words.len() == 1;
    is_one && words[0].as_str() == "--help"
}

/// Tries the path that these words ask for.
fn try_words<R>(rt: &R, words: &[String]) -> io::Result<()>
where
    R: Files + Net + Clock + Print + AllocGlobal,
{
    if asks_for_help(words) {
        return println!(rt;
            "path_probe FROM TO FIRST CORE CORE LAST: tries the path between two hosts"
        );
    }
    let probe = probe_of(rt, words)?;
    probe.try_all(rt)
}

/// Tries the path that the words after the program's name ask for.
fn try_path<R>(rt: &R) -> io::Result<()>
where
    R: Env + Files + Net + Clock + Print + AllocGlobal,
{
    let words = words_of(rt)?;
    try_words(rt, words.as_slice())
}

fn main(rt: HostRuntime) -> ExitCode {
    match try_path(&rt) {
        Ok(()) => ExitCode::SUCCESS,
        Err(error) => {
            let _ = eprintln!(rt; "path_probe: {error}");
            ExitCode::FAILURE
        }
    }
}
