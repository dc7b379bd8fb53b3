//! What arrives in a replay, link by link.
ghost use Rattle.std.specs.Prelude.{◌≡◌, ◌<◌, ◌∷◌, ◌++◌, [], IfOk, OnOk, List, length};
ghost use Rattle.cli_replay.specs.ArriveLine.{incoming_datagram};
ghost use Rattle.cli_replay.specs.Gathered.{AreGathered};
ghost use Rattle.router_rules.specs.Datagram.{Datagram};
ghost use Rattle.router_rules.specs.Links.{link_index};

use crate::arrive_line::Incoming;
use process_packet::{Arrival, Config};
use router_rules::{link_count, link_index};
use std::alloc::{AllocError, Global};

/// A list for each link, in ascending order of the interfaces, with nothing in it yet. `Err` where
/// no memory is left.
pub fn no_arrivals(alloc: Global, config: &Config) -> Result<Vec<Vec<Arrival>>, AllocError>
    ensures { IfOk result (λ lists. AreGathered config.now [] lists.items) }
{
    let mut lists = Vec::new(alloc);
    for _ in 0..link_count(config) {
        lists.push(Vec::new(alloc))?;
    }
    Ok(lists)
}

/// Puts a datagram after those of its link, under the next number there. At `Err` no memory was
/// left, and the datagram is dropped.
pub fn add_arrival(
    config: &Config,
    lists: &mut Vec<Vec<Arrival>>,
    incoming: Incoming,
) -> Result<(), AllocError>
    requires { link_index config.now incoming.arrival_context.link < length lists.old.items }
    ensures { OnOk result ((ds : List Datagram) → AreGathered config.now ds lists.old.items
        → AreGathered config.now (ds ++ incoming_datagram incoming ∷ []) lists.new.items) }
{
    let Incoming {
        arrival_context,
        bytes,
    } = incoming;
    let list = &mut lists[usize::from(link_index(config, arrival_context.link))];
    let number = list.len() as u64 + 1;
    list.push(Arrival {
        link: arrival_context.link,
        number,
        source: arrival_context.source,
        now: arrival_context.moment,
        bytes,
    })?;
    Ok(())
}
