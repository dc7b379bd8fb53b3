//! Three ASes in one process: starts the four routers of these configurations, each over its own sockets, tries
//! the path between two hosts over them, ends the routers, and prints their reports.
//!
//! `try_net FROM TO FIRST CORE CORE LAST`, with the words of `path_probe`.
#![tactic(auto)]

ghost use Rattle.std.specs.Prelude.{◌≡◌, ◌≢◌, length, false};
ghost use Rattle.try_net.specs.Naming.{IsNamed};

mod router;

use crate::router::{Plan, end_router, plan_of, start_router};
use path_trial::probe_of;
use std::marker::Brand;
use std::net::Net;
use std::process::ExitCode;
use std::rt::{Clock, Env, Files};
use std::sync::Wait;
use std::thread::Threads;
use std::{env, io};
use worker_parts::RunBrand;

/// The words after the program's name.
fn words_of<R: Env + AllocGlobal>(rt: &R) -> io::Result<Vec<String>> {
    Ok(env::args(rt)?.skip(1).collect(rt.alloc())?)
}

/// Whether the words name two hosts and four configurations.
fn are_whole(words: &[String]) -> bool
    ensures { length words.now ≢ 6 → result ≡ false }
{
    words.len() == 6
}

/// Tries the path that the words name.
fn try_path<R>(rt: &R, words: &[String]) -> io::Result<()>
where
    R: Files + Net + Clock + Print + AllocGlobal,
{
    let probe = probe_of(rt, words)?;
    probe.try_all(rt)
}

/// Tries the path while the first router runs, and prints its report.
fn with_first<N, R>(rt: R, words: &[String], first: Plan<R>) -> io::Result<()>
where
    N: RunBrand + Send + Sync + 'static,
    R: Files + Net + Threads + Wait + Clock + Print + AllocGlobal + Copy + Send + Drop + 'static,
    requires words { length words.now ≡ 6 }
    requires named { IsNamed N.table N.workers N.config first.blank.table first.config }
{
    let router = start_router::<N, R>(rt, rt.alloc(), first);
    let tried = try_path(&rt, words);
    let ended = end_router(&rt, words[2].as_str(), router);
    tried.and(ended)
}

/// The same while the router runs too by which the path enters the core AS.
fn with_core_in<N, R>(rt: R, words: &[String], first: Plan<R>, core_in: Plan<R>) -> io::Result<()>
where
    N: RunBrand + Send + Sync + 'static,
    R: Files + Net + Threads + Wait + Clock + Print + AllocGlobal + Copy + Send + Drop + 'static,
    requires words { length words.now ≡ 6 }
    requires named { IsNamed N.table N.workers N.config core_in.blank.table core_in.config }
{
    let router = start_router::<N, R>(rt, rt.alloc(), core_in);
    let tried = with_first::<Brand, R>(rt, words, first);
    let ended = end_router(&rt, words[3].as_str(), router);
    tried.and(ended)
}

/// The same while the router runs too by which the path leaves the core AS.
fn with_core_out<N, R>(
    rt: R,
    words: &[String],
    first: Plan<R>,
    core_in: Plan<R>,
    core_out: Plan<R>,
) -> io::Result<()>
where
    N: RunBrand + Send + Sync + 'static,
    R: Files + Net + Threads + Wait + Clock + Print + AllocGlobal + Copy + Send + Drop + 'static,
    requires words { length words.now ≡ 6 }
    requires named { IsNamed N.table N.workers N.config core_out.blank.table core_out.config }
{
    let router = start_router::<N, R>(rt, rt.alloc(), core_out);
    let tried = with_core_in::<Brand, R>(rt, words, first, core_in);
    let ended = end_router(&rt, words[4].as_str(), router);
    tried.and(ended)
}

/// The same while the last router runs too.
fn with_last<N, R>(
    rt: R,
    words: &[String],
    first: Plan<R>,
    core_in: Plan<R>,
    core_out: Plan<R>,
    last: Plan<R>,
) -> io::Result<()>
where
    N: RunBrand + Send + Sync + 'static,
    R: Files + Net + Threads + Wait + Clock + Print + AllocGlobal + Copy + Send + Drop + 'static,
    requires words { length words.now ≡ 6 }
    requires named { IsNamed N.table N.workers N.config last.blank.table last.config }
{
    let router = start_router::<N, R>(rt, rt.alloc(), last);
    let tried = with_core_out::<Brand, R>(rt, words, first, core_in, core_out);
    let ended = end_router(&rt, words[5].as_str(), router);
    tried.and(ended)
}

/// Tries the path while a router runs for each of the four configurations, and prints their reports in the order of the
/// path.
fn try_net<R>(rt: R, words: &[String]) -> io::Result<()>
where
    R: Files + Net + Threads + Wait + Clock + Print + AllocGlobal + Copy + Send + Drop + 'static,
    requires { length words.now ≡ 6 }
{
    let first = plan_of(&rt, words[2].as_str())?;
    let core_in = plan_of(&rt, words[3].as_str())?;
    let core_out = plan_of(&rt, words[4].as_str())?;
    let last = plan_of(&rt, words[5].as_str())?;
    with_last::<Brand, R>(rt, words, first, core_in, core_out, last)
}

/// Does what the words ask for: without hosts and configurations the program tells what it takes.
fn run<R>(rt: R) -> io::Result<()>
where
    R: Env
        + Files
        + Net
        + Threads
        + Wait
        + Clock
        + Print
        + AllocGlobal
        + Copy
        + Send
        + Drop
        + 'static,
{
    let words = words_of(&rt)?;
    if !are_whole(words.as_slice()) {
        return println!(rt;
            "try_net FROM TO FIRST CORE CORE LAST: starts four routers and tries the path between two hosts"
        );
    }
    try_net(rt, words.as_slice())
}

fn main(rt: HostRuntime) -> ExitCode {
    match run(rt) {
        Ok(()) => ExitCode::SUCCESS,
        Err(error) => {
            let _ = eprintln!(rt; "try_net: {error}");
            ExitCode::FAILURE
        }
    }
}
