//! A SCION border router: `router run --config FILE [--metrics ADDR]` runs it over its sockets; `router route
//! --config FILE --link N --now S [--from ADDR]` answers datagrams, one a line in hex; `router replay --config
//! FILE` makes steps of the pipeline, one a line; `router check --config FILE` tells whether a configuration is
//! good, and `router check --net FILE..` whether the routers of several fit one another; `router import --topology
//! FILE --router NAME --keys DIR` makes one of scionproto's topology and key.
#![tactic(auto)]

ghost use Rattle.std.specs.Prelude.{◌≡◌, true, false};

use cli_check::{check_config, check_net};
use cli_faults::Fault;
use cli_import::import_config;
use cli_io::{ArrivalContext, usual_source};
use cli_replay::replay_lines;
use cli_route::route_lines;
use cli_words::{Subcommand, VERSION, WordsFault, read_words};
use process_packet::{Config, Underlay};
use router_config::read_config;
use std::io::BufReader;
use std::net::{Net, TcpListener, TcpStream};
use std::process::ExitCode;
use std::rt::{Clock, Env, Files};
use std::sync::Wait;
use std::thread::Threads;
use std::{env, fs, io};
use udp_router::{Metrics, run_router};

/// The words after the program's name.
fn words_of<R: Env + AllocGlobal>(rt: &R) -> Result<Vec<String>, Fault> {
    let args = match env::args(rt) {
        Ok(args) => args,
        Err(error) => return Err(Fault::of_words(error)),
    };
    let mut words = Vec::new(rt.alloc());
    for word in args.skip(1) {
        words.push(word)?;
    }
    Ok(words)
}

/// The configuration that a file holds.
fn config_at<R: Files + AllocGlobal>(rt: &R, path: &str) -> Result<Config, Fault> {
    let text = match fs::read_to_string(rt, path) {
        Ok(text) => text,
        Err(error) => return Err(Fault::of_file(error)),
    };
    match read_config(rt.alloc(), text.as_str()) {
        Ok(config) => Ok(config),
        Err(fault) => Err(Fault::Config(fault)),
    }
}

/// Answers the datagrams on the standard input, which arrive on a link at a moment.
fn route_datagrams<R: Files + Input + Print + AllocGlobal>(
    rt: &R,
    path: &str,
    link: u16,
    moment: u64,
    from: Option<Underlay>,
) -> Result<(), Fault> {
    let alloc = rt.alloc();
    let config = config_at(rt, path)?;
    let Some(usual) = usual_source(&config, link) else {
        return Err(Fault::Link);
    };
    let arriving = ArrivalContext {
        link,
        source: from.unwrap_or(usual),
        moment,
    };
    let Ok(mut reader) = BufReader::new(alloc, rt.reader()) else {
        return Err(Fault::Memory);
    };
    let mut writer = io::writer(rt);
    match route_lines(alloc, &config, &arriving, &mut reader, &mut writer) {
        Ok(()) => Ok(()),
        Err(fault) => Err(Fault::Lines(fault)),
    }
}

/// Makes the steps on the standard input.
fn replay_schedule<R: Files + Input + Print + AllocGlobal>(
    rt: &R,
    path: &str,
) -> Result<(), Fault> {
    let alloc = rt.alloc();
    let config = config_at(rt, path)?;
    let Ok(mut reader) = BufReader::new(alloc, rt.reader()) else {
        return Err(Fault::Memory);
    };
    let mut writer = io::writer(rt);
    match replay_lines(alloc, config, &mut reader, &mut writer) {
        Ok(()) => Ok(()),
        Err(fault) => Err(Fault::Lines(fault)),
    }
}

/// Where the counts are shown, if they are.
fn metrics_at(address: Option<Underlay>) -> Option<Metrics> {
    match address {
        Some(address) => Some(Metrics {
            address,
            version: VERSION,
        }),
        None => None,
    }
}

/// Runs the router over its sockets, led by the standard input, and shows its counts at an address,
/// if one is given.
fn run_over_sockets<R>(rt: &R, path: &str, metrics: Option<Underlay>) -> Result<(), Fault>
where
    R: Files
        + Input
        + Print
        + AllocGlobal
        + Net<Listener = TcpListener, Stream = TcpStream>
        + Threads
        + Wait
        + Clock
        + Copy
        + Send
        + Drop
        + 'static,
{
    let alloc = rt.alloc();
    let config = config_at(rt, path)?;
    let Ok(mut reader) = BufReader::new(alloc, rt.reader()) else {
        return Err(Fault::Memory);
    };
    let mut writer = io::writer(rt);
    let metrics = metrics_at(metrics);
    match run_router(*rt, alloc, config, metrics, &mut reader, &mut writer) {
        Ok(()) => Ok(()),
        Err(fault) => Err(Fault::Run(fault)),
    }
}

/// Does what the command line asks for.
fn run<R>(rt: &R) -> Result<(), Fault>
where
    R: Files
        + Env
        + Input
        + Print
        + Eprint
        + AllocGlobal
        + Net<Listener = TcpListener, Stream = TcpStream>
        + Threads
        + Wait
        + Clock
        + Copy
        + Send
        + Drop
        + 'static,
{
    let words = words_of(rt)?;
    let order = match read_words(rt.alloc(), words.as_slice()) {
        Ok(order) => order,
        Err(fault) => return Err(Fault::Words(fault)),
    };
    match order {
        Subcommand::Route {
            config,
            link,
            now,
            from,
        } => route_datagrams(rt, config, link, now, from),
        Subcommand::Replay { config } => replay_schedule(rt, config),
        Subcommand::Run { config, metrics } => run_over_sockets(rt, config, metrics),
        Subcommand::Check {
            config,
            strict,
            bind,
        } => check_config(rt, config, strict, bind),
        Subcommand::CheckNet { files } => check_net(rt, files),
        Subcommand::Import(words) => import_config(rt, &words),
    }
}

/// The exit status after the command line's own text was printed: 2 for words that give no order, 0 for help
/// and the version, which were asked for.
fn status_of(is_error: bool) -> u8
    ensures error { is_error ≡ true → result ≡ 2 }
    ensures help { is_error ≡ false → result ≡ 0 }
{
    if is_error { 2 } else { 0 }
}

fn main(rt: HostRuntime) -> ExitCode {
    // The descriptor of a standard stream that was closed before goes to what is opened next. That may be
    // no socket, whose datagrams would be read as commands: so these take them, to the end.
    let _held = [
        fs::open(&rt, "/dev/null"),
        fs::open(&rt, "/dev/null"),
        fs::open(&rt, "/dev/null"),
    ];
    let Err(fault) = run(&rt) else {
        return ExitCode::SUCCESS;
    };
    // Help is printed as the words' fault; where that fails, the output's fault is the answer.
    let fault = match fault {
        Fault::Words(WordsFault::Told(error)) => match error.print(&rt) {
            Ok(()) => return ExitCode::from(status_of(error.use_stderr())),
            Err(error) => Fault::of_output(error),
        },
        other => other,
    };
    let _ = eprintln!(rt; "fault: {fault}");
    ExitCode::FAILURE
}
