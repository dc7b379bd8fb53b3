//! The places of the workers' hands and of the pipes.

ghost use Rattle.std.specs.Prelude.{◌≡◌, ◌≤◌};
ghost use Rattle.order_laws.specs.Pipes.{link_pipe, slow_seat};
ghost use Rattle.replay_laws.specs.World.{seat_count};
ghost use Rattle.router_rules.specs.Rules.{rules};

use process_packet::Config;
use router_rules::link_count;

/// The place of the slow path's hand in the list of hands, and of its pipe in the list of pipes.
pub fn slow_seat(config: &Config) -> usize
    ensures place { result ≡ slow_seat (rules config.now) }
    ensures few { result ≤ 49 }
{
    link_count(config) + usize::from(config.processors)
}

/// How many hands there are.
pub fn seat_count(config: &Config) -> usize
    ensures count { result ≡ seat_count (rules config.now) }
    ensures few { result ≤ 83 }
{
    slow_seat(config) + 1 + link_count(config)
}

/// The place of a link's pipe for one of the bands.
pub fn link_pipe(config: &Config, high: bool, link: u16) -> usize
    ensures { result ≡ link_pipe (rules config.now) high link }
{
    slow_seat(config) + 1 + 2 * usize::from(link) + usize::from(high)
}
