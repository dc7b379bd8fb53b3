//! The words of `import`.
ghost use Rattle.std.specs.Prelude.{◌≡◌, codes, IfNone, IfSome};
ghost use Rattle.clap.specs.Matches.{found_of};
ghost use Rattle.clap.specs.Walk.{rows_of};
ghost use Rattle.cli_words.specs.Words.{Asks, AsksImport, ImportAsked, IsGrammar, asked_of, importing};

use crate::words::{Subcommand, flag, is_given, offered, wanted, with_option};
use clap::{ArgMatches, Command};
use std::alloc::{AllocError, Global};

const ABOUT: &str = "Prints a configuration that is made of scionproto's topology and master key";

/// The help of its options.
const TOPOLOGY_HELP: &str = "The AS's topology.json";

const ROUTER_HELP: &str = "The border router's name there";

const KEYS_HELP: &str = "The folder of the AS's master0.key";

const OUT_HELP: &str = "Writes the configuration to a file that its owner alone can read";

const PORT_RANGE_HELP: &str =
    "Carries dispatched_ports: packets go to the ports at which applications listen";

const STRICT_HELP: &str = "Prints nothing where a part is left out or the configuration will hurt";

/// What `import` is asked for.
#[derive(Clone, Copy)]
pub struct ImportWords<'a> {
    /// The path of the topology.
    pub topology: &'a str,
    /// The border router's name in it.
    pub border_router: &'a str,
    /// The path of the folder of keys.
    pub keys: &'a str,
    /// The path of the configuration that is to be written, if it isn't to be printed.
    pub out: Option<&'a str>,
    /// Whether the ports at which applications listen are carried over.
    pub port_range: bool,
    /// Whether what is left out, or will hurt, is a fault.
    pub strict: bool,
}

/// The words of `import`.
pub(crate) fn import_grammar<'a>(alloc: Global) -> Result<Command<'a>, AllocError>
    ensures { IsGrammar importing result }
{
    let command = Command::new(alloc, "import").about(ABOUT);
    let command = with_option(
        Ok(command),
        wanted(alloc, "topology", "FILE", TOPOLOGY_HELP),
    );
    let command = with_option(command, wanted(alloc, "router", "NAME", ROUTER_HELP));
    let command = with_option(command, wanted(alloc, "keys", "DIR", KEYS_HELP));
    let command = with_option(command, offered(alloc, "out", "FILE", OUT_HELP));
    let command = with_option(command, flag(alloc, "port-range", PORT_RANGE_HELP));
    with_option(command, flag(alloc, "strict", STRICT_HELP))
}

/// The order that the options of `import` give.
pub(crate) fn import_of<'a>(import: &ArgMatches<'a>) -> Option<Subcommand<'a>>
    ensures found { IfSome result (λ order. Asks (codes "import", rows_of (found_of import.now)) (asked_of order)) }
    ensures none { IfNone result ((asked : ImportAsked) → ¬ AsksImport (rows_of (found_of import.now)) asked) }
{
    let topology = import.get_str("topology")?;
    let border_router = import.get_str("router")?;
    let keys = import.get_str("keys")?;
    let out = import.get_str("out");
    let port_range = is_given(import, "port-range");
    let strict = is_given(import, "strict");
    Some(Subcommand::Import(ImportWords {
        topology,
        border_router,
        keys,
        out,
        port_range,
        strict,
    }))
}
