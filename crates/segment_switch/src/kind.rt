//! The kinds of links.

/// What the AS at the other end of a link is to the local one.
#[derive(Clone, Copy, PartialEq, Eq)]
pub enum LinkKind {
    /// Both are core ASes.
    Core,
    /// It provides for the local AS.
    Parent,
    /// The local AS provides for it.
    Child,
}
