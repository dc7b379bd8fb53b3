//! The events on which workers sleep, and who notifies which.

ghost use Rattle.std.specs.Prelude.{◌≡◌, IfOk, length};

use std::alloc::{AllocError, Global};
use std::sync::Arc;
use worker_parts::{Event, Wakeup};

/// An event for each worker that sleeps until something is pushed: each processor, the slow path and each
/// forwarder. The producers of its pipes notify it.
#[derive(Drop)]
pub struct Events {
    pub processors: Vec<Event>,
    pub slow: Event,
    pub forwarders: Vec<Event>,
}

fn so_many(alloc: Global, count: usize) -> Result<Vec<Event>, AllocError>
    ensures { IfOk result (λ v. length v.items ≡ count) }
{
    let mut events = Vec::new(alloc);
    for k in 0..count {
        events.push(Arc::new(alloc, Wakeup::new())?)?;
    }
    Ok(events)
}

/// New events for a router with these numbers of links and processors. `Err` where no memory is left.
pub fn events_for(alloc: Global, links: usize, processors: usize) -> Result<Events, AllocError>
    ensures processors { IfOk result (λ e. length e.processors.items ≡ processors) }
    ensures forwarders { IfOk result (λ e. length e.forwarders.items ≡ links) }
{
    Ok(Events {
        processors: so_many(alloc, processors)?,
        slow: Arc::new(alloc, Wakeup::new())?,
        forwarders: so_many(alloc, links)?,
    })
}

/// Wakes the worker of a number.
pub fn notify_one(events: &[Event], number: usize) {
    if let Some(event) = events.get(number) {
        event.notify();
    }
}

/// Wakes them all.
pub fn notify_all(events: &[Event]) {
    for event in events {
        event.notify();
    }
}
