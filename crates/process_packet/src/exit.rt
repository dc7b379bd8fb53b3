//! The ways out of the AS.

use crate::underlay::Underlay;
use segment_switch::LinkKind;

/// The way out of the AS by an interface, with the kind of its link.
#[derive(Clone, Copy)]
pub(crate) enum Exit {
    /// A link of this router.
    Own(LinkKind),
    /// An interface of the router at this internal address.
    OfSibling(LinkKind, Underlay),
}

impl Exit {
    ghost use Rattle.std.specs.Prelude.{◌≡◌};
    ghost use Rattle.process_packet.specs.Exit.{exit_kind, is_own};

    /// What the AS at the other end of the link is.
    pub(crate) fn kind(&self) -> LinkKind
        ensures { result ≡ exit_kind self.now }
    {
        match self {
            Exit::Own(kind) => *kind,
            Exit::OfSibling(kind, _) => *kind,
        }
    }

    /// Whether the link is this router's own.
    pub(crate) fn is_own(&self) -> bool
        ensures { result ≡ is_own self.now }
    {
        match self {
            Exit::Own(_) => true,
            Exit::OfSibling(..) => false,
        }
    }
}
