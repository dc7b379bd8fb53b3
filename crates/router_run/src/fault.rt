//! Why a router was not started.

/// Why a router was not started. Want of memory and a wrong count hand sources and sinks back, none of
/// them asked; where a thread was refused they are dropped unasked.
#[derive(Drop)]
pub enum StartFault<S, K> {
    /// No memory.
    NoMemory { sources: Vec<S>, sinks: Vec<K> },
    /// Not one source and one sink a link.
    Count { sources: Vec<S>, sinks: Vec<K> },
    /// A thread couldn't be made. Those that were made ended without a turn.
    Thread,
}
