//! Why `router run` ends before its work is done.

use cli_io::LinesFault;
use thiserror::Error;

/// Why a router over its sockets wasn't started, or ended before its report was written.
#[derive(Clone, Copy, Debug, PartialEq, Eq, Error)]
pub enum RunFault {
    /// The socket of the link with this interface can't be had; 0 is the internal network.
    #[error("socket {0}")]
    Socket(u16),
    /// The socket at which the counts are to be shown can't be had.
    #[error("metrics")]
    Metrics,
    /// No memory was left for the router's queues, buffers and workers.
    #[error("start 1")]
    NoMemory,
    /// There isn't one source and one sink for each link.
    #[error("start 2")]
    Count,
    /// A thread can't be had.
    #[error("start 3")]
    Thread,
    /// The engine stopped.
    #[error(transparent)]
    Lines(LinesFault),
}
