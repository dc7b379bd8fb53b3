//! The command line.
ghost use Rattle.std.specs.Prelude.{◌≡◌, ◌≢◌, ◌==◌, ◌&&◌, not, ℕ, List, Option, Some, codes, length, map, option_map, string_bytes, false, IfErr, IfNone, IfOk, IfSome};
ghost use Rattle.std.specs.List.{list_all};
ghost use Rattle.std.specs.Str.{bytes_eq};
ghost use Rattle.clap.specs.Simple.{App, app_of, subcommand_rows_of, with_rule, with_subcommand};
ghost use Rattle.clap.specs.Values.{kind_of};
ghost use Rattle.clap.specs.Matches.{found_of};
ghost use Rattle.clap.specs.Walk.{first_of, rows_of, rule_of};
ghost use Rattle.clap.specs.declared.error.kind.ErrorKind.TheVariants.{OutOfMemory};
ghost use Rattle.process_packet.specs.declared.underlay.Underlay.{Underlay as Address};
ghost use Rattle.cli_words.specs.Words.{Asked, Asks, AsksOf, AsksRoute, AsksRun, IsGrammar, Orders, OrdersByGrammar, address_of, alone, asked_of, check, files_of, flag, is_file, is_given, net_files, offered, route, router, run, wanted};
ghost use Rattle.cli_words.specs.declared.words.WordsFault.TheVariants.{Memory, Told};

use crate::import_words::{ImportWords, import_grammar, import_of};
use clap::error::ErrorKind;
use clap::{Arg, ArgAction, ArgMatches, Command};
use process_packet::Underlay;
use std::alloc::{AllocError, AllocFailed, Global};
use text_values::{read_decimal, read_underlay};
use thiserror::Error;

/// The last second since 1970 that `--now` takes.
const LAST_SECOND: u64 = 1099511627775;

/// The help of `--config`.
const CONFIG_HELP: &str = "The border router's configuration, as TOML";

/// The help of the other options of `route`.
const LINK_HELP: &str = "The link on which the datagrams arrive; 0 is the internal network";

const NOW_HELP: &str = "When they arrive, in seconds since 1970";

const FROM_HELP: &str =
    "The underlay's source, as 1.2.3.4:5 or [a:b:c:d:e:f:0:1]:5; else the link's remote end";

/// The version of the program.
pub const VERSION: &str = "0.1.0";

/// The help of the other option of `run`.
const METRICS_HELP: &str =
    "Shows the counts to Prometheus over HTTP, at this address: 1.2.3.4:5 or [a:b:c:d:e:f:0:1]:5";

/// The help of the commands.
const REPLAY_ABOUT: &str =
    "Makes the steps of the pipeline that the standard input lists, and reports";

const RUN_ABOUT: &str =
    "Runs the router over its sockets until its standard input ends, and reports";

const CHECK_ABOUT: &str =
    "Tells whether a configuration is good, and else where it isn't; and warns of what will hurt. \
     `check --net FILE..` tells whether several fit one another, and else the first two that don't";

/// The help of the other options of `check`.
const STRICT_HELP: &str = "Takes a warning for a fault";

const BIND_HELP: &str =
    "Opens the sockets too, tells of each that can't be had why, and closes them";

/// What the command line asks for.
#[derive(Clone, Copy)]
pub enum Subcommand<'a> {
    /// To answer the datagrams on the standard input.
    Route {
        /// The path of the configuration.
        config: &'a str,
        /// The link on which the datagrams arrive; 0 is the internal network.
        link: u16,
        /// When they arrive, in seconds since 1970.
        now: u64,
        /// The underlay's source of them, where one is named.
        from: Option<Underlay>,
    },
    /// To make the steps on the standard input.
    Replay {
        /// The path of the configuration.
        config: &'a str,
    },
    /// To run the router over its sockets, with its commands on the standard input.
    Run {
        /// The path of the configuration.
        config: &'a str,
        /// Where the counts are shown, if they are.
        metrics: Option<Underlay>,
    },
    /// To tell whether a configuration is good, and else where it isn't.
    Check {
        /// The path of the configuration.
        config: &'a str,
        /// Whether a warning is a fault.
        strict: bool,
        /// Whether its sockets are opened too.
        bind: bool,
    },
    /// To tell whether the routers of several configurations fit one another, and else the first that don't.
    CheckNet {
        /// The paths of the configurations, at least one.
        files: &'a [String],
    },
    /// To print a configuration that is made of scionproto's topology and key.
    Import(ImportWords<'a>),
}

/// Why a command line gives no order.
#[derive(Debug, Drop, Error)]
pub enum WordsFault {
    /// Help or the version was asked for, or the words are refused. The error has the text, the
    /// stream that it belongs on, and the exit status.
    #[error("{0}")]
    Told(clap::Error),
    /// No memory was left.
    #[error("memory")]
    Memory,
}

impl From<AllocError> for WordsFault {
    ghost from_gives = { λ _ fault. fault ≡ Memory };

    fn from(_error: AllocError) -> WordsFault {
        WordsFault::Memory
    }
}

impl<T: Drop> From<AllocFailed<T>> for WordsFault {
    ghost from_gives = { λ _ fault. fault ≡ Memory };

    fn from(_error: AllocFailed<T>) -> WordsFault {
        WordsFault::Memory
    }
}

/// What an error of the parse means.
fn fault_of(error: clap::Error) -> WordsFault
    ensures memory { kind_of error ≡ OutOfMemory → result ≡ Memory }
    ensures told { kind_of error ≢ OutOfMemory → result ≡ Told error }
{
    match error.kind() {
        ErrorKind::OutOfMemory => WordsFault::Memory,
        _ => WordsFault::Told(error),
    }
}

/// The option `--name VALUE`, which has to be there.
pub(crate) fn wanted<'a>(alloc: Global, name: &'a str, value: &'a str, help: &'a str) -> Arg<'a>
    ensures rule { rule_of result ≡ wanted name.now }
    ensures own { result.global ≡ false }
{
    Arg::new(alloc, name)
        .long(name)
        .value_name(value)
        .help(help)
        .required(true)
        .action(ArgAction::Set)
}

/// The option `--name VALUE`, which may be there.
pub(crate) fn offered<'a>(alloc: Global, name: &'a str, value: &'a str, help: &'a str) -> Arg<'a>
    ensures rule { rule_of result ≡ offered name.now }
    ensures own { result.global ≡ false }
{
    Arg::new(alloc, name)
        .long(name)
        .value_name(value)
        .help(help)
        .action(ArgAction::Set)
}

/// The option `--name`, which may be there and takes no value.
pub(crate) fn flag<'a>(alloc: Global, name: &'a str, help: &'a str) -> Arg<'a>
    ensures rule { rule_of result ≡ flag name.now }
    ensures own { result.global ≡ false }
{
    Arg::new(alloc, name)
        .long(name)
        .help(help)
        .action(ArgAction::SetTrue)
}

/// The command with an option more, unless memory ran out before.
pub(crate) fn with_option<'a>(
    command: Result<Command<'a>, AllocError>,
    option: Arg<'a>,
) -> Result<Command<'a>, AllocError>
    requires { option.global ≡ false }
    ensures { (app : App) → IsGrammar app command.entry → IsGrammar (with_rule app (rule_of option.entry)) result }
{
    match command {
        Ok(command) => command.arg(option),
        Err(fault) => Err(fault),
    }
}

/// The words of `route`.
fn route_grammar<'a>(alloc: Global) -> Result<Command<'a>, AllocError>
    ensures { IsGrammar route result }
{
    let command = Command::new(alloc, "route").about(
        "Answers each line of hex on the standard input, a datagram, by one line",
    );
    let command = with_option(Ok(command), wanted(alloc, "config", "FILE", CONFIG_HELP));
    let command = with_option(command, wanted(alloc, "link", "N", LINK_HELP));
    let command = with_option(command, wanted(alloc, "now", "S", NOW_HELP));
    with_option(command, offered(alloc, "from", "ADDR", FROM_HELP))
}

/// The words of an order that takes a configuration alone.
fn alone_grammar<'a>(
    alloc: Global,
    name: &'a str,
    about: &'a str,
) -> Result<Command<'a>, AllocError>
    ensures { IsGrammar (alone name.now) result }
{
    let config = wanted(alloc, "config", "FILE", CONFIG_HELP);
    Command::new(alloc, name).about(about).arg(config)
}

/// The words of `run`.
fn run_grammar<'a>(alloc: Global) -> Result<Command<'a>, AllocError>
    ensures { IsGrammar run result }
{
    let command = alone_grammar(alloc, "run", RUN_ABOUT);
    with_option(command, offered(alloc, "metrics", "ADDR", METRICS_HELP))
}

/// The words of `check`.
fn check_grammar<'a>(alloc: Global) -> Result<Command<'a>, AllocError>
    ensures { IsGrammar check result }
{
    let command = alone_grammar(alloc, "check", CHECK_ABOUT);
    let command = with_option(command, flag(alloc, "strict", STRICT_HELP));
    with_option(command, flag(alloc, "bind", BIND_HELP))
}

/// The words of a program with an order more, unless memory ran out before.
fn with_order<'a>(
    program: Result<Command<'a>, AllocError>,
    order: Result<Command<'a>, AllocError>,
) -> Result<Command<'a>, AllocError>
    ensures { (app sub : App) → IfOk program.entry (λ c. app_of c ≡ app) → IsGrammar sub order.entry → IfOk result (λ r. app_of r ≡ with_subcommand app sub.top) }
{
    match (program, order) {
        (Ok(program), Ok(order)) => program.subcommand(order),
        _ => Err(AllocError),
    }
}

/// The words that the program takes.
fn grammar<'a>(alloc: Global) -> Result<Command<'a>, AllocError>
    ensures { IfOk result (λ command. app_of command ≡ router) }
{
    let program = Command::new(alloc, "router")
        .about("A SCION border router")
        .version(VERSION)
        .no_binary_name(true)
        .subcommand_required(true)
        .bin_name("router");
    let program = with_order(program, route_grammar(alloc));
    let program = with_order(program, alone_grammar(alloc, "replay", REPLAY_ABOUT));
    let program = with_order(program, run_grammar(alloc));
    let program = with_order(program, check_grammar(alloc));
    with_order(program, import_grammar(alloc))
}

/// The address that a word names, if it is one; no word names none.
fn read_address(word: Option<&str>) -> Option<Option<Underlay>>
    ensures { result ≡ address_of (option_map (λ text. text.now) word.entry) }
{
    match word {
        None => Some(None),
        Some(text) => match read_underlay(text) {
            Some(from) => Some(Some(from)),
            None => None,
        },
    }
}

/// The order that the options of `route` give, if their numbers are plain decimals in range and the
/// source is an address.
fn route_of<'a>(route: &ArgMatches<'a>) -> Option<Subcommand<'a>>
    ensures found { IfSome result (λ order. Asks (codes "route", rows_of (found_of route.now)) (asked_of order)) }
    ensures none { IfNone result ((config : List ℕ) (link now : ℕ) (from : Option Address)
        → ¬ AsksRoute (rows_of (found_of route.now)) config link now from) }
{
    let config = route.get_str("config")?;
    let link = read_decimal(route.get_str("link")?, u16::MAX.into())?;
    let now = read_decimal(route.get_str("now")?, LAST_SECOND)?;
    let from = read_address(route.get_str("from"))?;
    Some(Subcommand::Route {
        config,
        link: link as u16,
        now,
        from,
    })
}

/// The order that the option of `replay` gives.
fn replay_of<'a>(replay: &ArgMatches<'a>) -> Option<Subcommand<'a>>
    ensures found { IfSome result (λ order. Asks (codes "replay", rows_of (found_of replay.now)) (asked_of order)) }
    ensures none { IfNone result ((config : List ℕ) → first_of (codes "config") (rows_of (found_of replay.now)) ≢ Some config) }
{
    match replay.get_str("config") {
        Some(config) => Some(Subcommand::Replay { config }),
        None => None,
    }
}

/// The order that the options of `run` give, if the counts are to be shown at an address, or not at
/// all.
fn run_of<'a>(run: &ArgMatches<'a>) -> Option<Subcommand<'a>>
    ensures found { IfSome result (λ order. Asks (codes "run", rows_of (found_of run.now)) (asked_of order)) }
    ensures none { IfNone result ((config : List ℕ) (metrics : Option Address)
        → ¬ AsksRun (rows_of (found_of run.now)) config metrics) }
{
    let config = run.get_str("config")?;
    let metrics = read_address(run.get_str("metrics"))?;
    Some(Subcommand::Run { config, metrics })
}

/// Whether an option without a value is there.
pub(crate) fn is_given(matches: &ArgMatches<'_>, name: &str) -> bool
    ensures { result ≡ is_given (first_of name.now (rows_of (found_of matches.now))) }
{
    match matches.get_str(name) {
        Some(word) => word == "true",
        None => false,
    }
}

/// The order that the options of `check` give.
fn check_of<'a>(check: &ArgMatches<'a>) -> Option<Subcommand<'a>>
    ensures found { IfSome result (λ order. Asks (codes "check", rows_of (found_of check.now)) (asked_of order)) }
    ensures none { IfNone result ((config : List ℕ) → first_of (codes "config") (rows_of (found_of check.now)) ≢ Some config) }
{
    let strict = is_given(check, "strict");
    let bind = is_given(check, "bind");
    match check.get_str("config") {
        Some(config) => Some(Subcommand::Check {
            config,
            strict,
            bind,
        }),
        None => None,
    }
}

/// The order that the parsed words give.
fn subcommand_of<'a>(matches: &ArgMatches<'a>) -> Option<Subcommand<'a>>
    ensures found { IfSome result (λ order. AsksOf (subcommand_rows_of matches.now) (asked_of order)) }
    ensures none { IfNone result ((asked : Asked) → ¬ AsksOf (subcommand_rows_of matches.now) asked) }
{
    if let Some(route) = matches.subcommand_matches("route") {
        return route_of(route);
    }
    if let Some(replay) = matches.subcommand_matches("replay") {
        return replay_of(replay);
    }
    if let Some(run) = matches.subcommand_matches("run") {
        return run_of(run);
    }
    if let Some(check) = matches.subcommand_matches("check") {
        return check_of(check);
    }
    if let Some(import) = matches.subcommand_matches("import") {
        return import_of(import);
    }
    None
}

/// Why options that the grammar takes give no order.
fn wrong_value(command: &mut Command<'_>) -> WordsFault {
    let message =
        "N is a decimal number up to 65535, S one up to 1099511627775, and ADDR an address and port";
    match command.error(ErrorKind::ValueValidation, message) {
        Ok(error) => fault_of(error),
        Err(_) => WordsFault::Memory,
    }
}

/// The order that the words give by the program's grammar.
fn parse<'a>(command: &mut Command<'a>, words: &'a [String]) -> Result<Subcommand<'a>, WordsFault>
    requires { app_of command.old ≡ router }
    ensures order { IfOk result (λ order. OrdersByGrammar (map string_bytes words.now) (asked_of order)) }
    ensures fault { IfErr result (λ fault. (asked : Asked) → OrdersByGrammar (map string_bytes words.now) asked → fault ≡ Memory) }
{
    let matches = match command.try_get_matches_from_mut(words) {
        Ok(matches) => matches,
        Err(error) => return Err(fault_of(error)),
    };
    match subcommand_of(&matches) {
        Some(order) => Ok(order),
        None => Err(wrong_value(command)),
    }
}

/// Whether a word is no option.
fn is_file(word: &str) -> bool
    ensures { result ≡ is_file word.now }
{
    match word.as_bytes().first() {
        Some(byte) => *byte != b'-',
        None => false,
    }
}

/// Whether none of the words is an option.
fn are_files(words: &[String]) -> bool
    ensures { result ≡ list_all (λ word. is_file (string_bytes word)) words.now }
{
    words.iter().all(|word| is_file(word.as_str()))
}

/// Whether the words are `check --net FILE..`, with at least one file.
fn are_net(command: &str, option: &str, files: &[String]) -> bool
    ensures { result ≡ (bytes_eq command.now (codes "check") && bytes_eq option.now (codes "--net")
        && not (length files.now == 0) && list_all (λ word. is_file (string_bytes word)) files.now) }
{
    command == "check" && option == "--net" && !files.is_empty() && are_files(files)
}

/// The files of `check --net FILE..`, if the words are these.
fn files_of<'a>(command: &str, option: &str, files: &'a [String]) -> Option<&'a [String]>
    ensures { option_map (λ files. map string_bytes files.now) result
        ≡ files_of command.now option.now (map string_bytes files.now) }
{
    if are_net(command, option, files) {
        Some(files)
    } else {
        None
    }
}

/// The files of `check --net FILE..`, if the words are these. They stay a part of the words, so that they take no
/// memory.
fn net_files<'a>(words: &'a [String]) -> Option<&'a [String]>
    ensures { option_map (λ files. map string_bytes files.now) result ≡ net_files (map string_bytes words.now) }
{
    let (command, rest) = words.split_first()?;
    let (option, files) = rest.split_first()?;
    files_of(command.as_str(), option.as_str(), files)
}

/// The order that the words give, where they aren't `check --net FILE..`.
fn read_by_grammar<'a>(alloc: Global, words: &'a [String]) -> Result<Subcommand<'a>, WordsFault>
    ensures order { IfOk result (λ order. OrdersByGrammar (map string_bytes words.now) (asked_of order)) }
    ensures fault { IfErr result (λ fault. (asked : Asked) → OrdersByGrammar (map string_bytes words.now) asked → fault ≡ Memory) }
{
    let mut command = grammar(alloc)?;
    let order = parse(&mut command, words);
    drop(command);
    order
}

/// The order that the words after the program's name give.
///
/// Each option is named once, by `--name VALUE` or `--name=VALUE`. Numbers are plain decimals:
/// digits with no sign and no leading zero. `check --net` takes the words after it, none of which is an option.
pub fn read_words<'a>(alloc: Global, words: &'a [String]) -> Result<Subcommand<'a>, WordsFault>
    ensures order { IfOk result (λ order. Orders (map string_bytes words.now) (asked_of order)) }
    ensures fault { IfErr result (λ fault. (asked : Asked) → Orders (map string_bytes words.now) asked → fault ≡ Memory) }
{
    match net_files(words) {
        Some(files) => Ok(Subcommand::CheckNet { files }),
        None => read_by_grammar(alloc, words),
    }
}
