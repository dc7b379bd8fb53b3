//! A range of ports.

/// The ports from the first to the last, both among them.
#[derive(Clone, Copy, PartialEq, Eq)]
pub struct PortRange {
    /// The first port, at least 1.
    pub first: u16,
    /// The last port, at least the first.
    pub last: u16,
}
