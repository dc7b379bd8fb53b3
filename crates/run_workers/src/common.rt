//! What all workers share.

use router_rules::Shared;
use run_pipes::Events;
use std::alloc::Global;
use std::sync::Arc;
use std::sync::atomic::AtomicU64;

/// The configuration, the word at which the receivers stop, and the events on which workers sleep.
#[derive(Drop)]
pub struct Common {
    pub shared: Arc<Shared, Global>,
    pub stop: Arc<AtomicU64, Global>,
    pub events: Events,
}
