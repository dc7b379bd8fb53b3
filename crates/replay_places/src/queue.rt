//! The pipes, by the names that callers know.

use router_rules::Worker;

/// A pipe, named by its consumer. The forwarder of a link with two bands has a second one.
#[derive(Clone, Copy)]
pub enum Queue {
    Of(Worker),
    /// The high band of a link.
    High(u16),
}
