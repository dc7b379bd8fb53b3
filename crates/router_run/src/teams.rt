//! The teams that get the threads, before their workers are there.

ghost use Rattle.std.specs.Prelude.{IfOk};
ghost use Rattle.router_run.specs.Teams.{AreTeamsFor};
ghost use Rattle.worker_threads.specs.Teams.{IsFor};

use run_pipes::Events;
use std::alloc::{AllocError, Global};
use worker_parts::{Event, Stage, all_three};
use worker_threads::{Handle, Team, ThreadControl};

/// The teams of a router: receivers, processors and forwarders, and the control of the slow path's thread. Workers
/// of any kinds can stand in for these.
#[derive(Drop)]
pub struct Teams<B, V, W, X>
where
    V: Stage,
    W: Stage,
    X: Stage,
{
    pub receivers: Team<B, V>,
    pub processors: Team<B, W>,
    pub slow: ThreadControl<B>,
    pub forwarders: Team<B, X>,
}

// ThreadControl for the threads of so many workers, each with its worker's event if it has one.
fn orders_for<B: Drop>(
    alloc: Global,
    control: &ThreadControl<B>,
    events: &[Event],
    count: usize,
) -> Result<Vec<ThreadControl<B>>, AllocError> {
    let mut each = Vec::new(alloc);
    for k in 0..count {
        let next = match events.get(k) {
            Some(event) => control.another_with(event),
            None => control.another(),
        };
        each.push(next?)?;
    }
    Ok(each)
}

// A team of so many workers, none of whom is there yet.
fn team_for<B: Drop, W: Stage + Drop>(
    alloc: Global,
    control: &ThreadControl<B>,
    events: &[Event],
    count: usize,
) -> Result<Team<B, W>, AllocError>
    ensures { IfOk result (λ t. IsFor count t) }
{
    let control = orders_for(alloc, control, events, count)?;
    let workers = Vec::<W>::with_capacity(alloc, count)?;
    let room = Vec::<Handle<W>>::with_capacity(alloc, count)?;
    Ok(Team {
        workers,
        control,
        room,
    })
}

/// The teams of a router with these numbers of links and processors, with room for the workers, none of
/// whom is there yet.
pub fn teams_for<B, V, W, X>(
    alloc: Global,
    control: &ThreadControl<B>,
    events: &Events,
    links: usize,
    processors: usize,
) -> Result<Teams<B, V, W, X>, AllocError>
where
    B: Drop,
    V: Stage + Drop,
    W: Stage + Drop,
    X: Stage + Drop,
    ensures { IfOk result (λ t. AreTeamsFor links processors t.receivers t.processors t.forwarders) }
{
    let slow = control.another_with(&events.slow)?;
    let receivers = team_for(alloc, control, &[], links);
    let processors = team_for(alloc, control, events.processors.as_slice(), processors);
    let forwarders = team_for(alloc, control, events.forwarders.as_slice(), links);
    let (receivers, processors, forwarders) = all_three(receivers, processors, forwarders)?;
    Ok(Teams {
        receivers,
        processors,
        slow,
        forwarders,
    })
}
