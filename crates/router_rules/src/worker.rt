//! Who works, by the names that callers know.

/// A worker of the pipeline. Links are named by their interface; 0 is the internal network.
#[derive(Clone, Copy, PartialEq, Eq)]
pub enum Worker {
    /// It receives what arrives on a link.
    Receiver(u16),
    /// It decides; the first one is 0.
    Processor(u8),
    /// The slow path: it answers.
    Slow,
    /// It sends on a link.
    Forwarder(u16),
    /// It closes links, and ends the run.
    Controller,
}
