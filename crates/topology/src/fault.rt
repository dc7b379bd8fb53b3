//! Why a topology gives nothing, in words.

ghost use Rattle.std.specs.Prelude.{◌≡◌};
ghost use Rattle.topology.specs.declared.fault.TopologyFault.TheVariants.{Memory, Refused};

use std::alloc::{AllocError, AllocFailed};
use std::fmt;

/// A part of a topology.
#[derive(Clone, Copy)]
pub enum Place<'t> {
    /// The file itself.
    Top,
    /// The border routers of the file.
    Routers,
    /// A border router, by its name.
    Router(&'t str),
    /// An interface, by the text of its number, and its router.
    Interface(&'t str, &'t str),
    /// The underlay of an interface.
    Underlay(&'t str, &'t str),
    /// BFD of an interface.
    Bfd(&'t str, &'t str),
    /// A control service, by its name.
    Control(&'t str),
    /// A discovery service, by its name.
    Discovery(&'t str),
}

/// What stands where something else is wanted.
#[derive(Clone, Copy)]
pub enum Found<'t> {
    /// Nothing.
    Nothing,
    /// A text.
    Text(&'t str),
    /// A value of another type.
    Other,
}

/// A value that isn't taken.
#[derive(Clone, Copy)]
pub struct Refusal<'t> {
    /// Where it is.
    pub place: Place<'t>,
    /// Its key there.
    pub key: &'t str,
    /// What is found.
    pub found: Found<'t>,
    /// What is wanted.
    pub wanted: &'static str,
}

/// Why a topology gives nothing.
#[derive(Clone, Copy)]
pub enum TopologyFault<'t> {
    /// A value isn't taken.
    Refused(Refusal<'t>),
    /// No memory was left.
    Memory,
}

impl<'t> From<Refusal<'t>> for TopologyFault<'t> {
    ghost from_gives = { λ refusal fault. fault ≡ Refused refusal };

    fn from(refusal: Refusal<'t>) -> TopologyFault<'t> {
        TopologyFault::Refused(refusal)
    }
}

impl<'t> From<AllocError> for TopologyFault<'t> {
    ghost from_gives = { λ _ fault. fault ≡ Memory };

    fn from(_error: AllocError) -> TopologyFault<'t> {
        TopologyFault::Memory
    }
}

impl<'t, T: Drop> From<AllocFailed<T>> for TopologyFault<'t> {
    ghost from_gives = { λ _ fault. fault ≡ Memory };

    fn from(_error: AllocFailed<T>) -> TopologyFault<'t> {
        TopologyFault::Memory
    }
}

// Names and texts come from the file: they are written with escapes, so a fault stays on its line.
impl fmt::Display for Place<'_> {
    fn fmt<W: fmt::Write>(&self, f: &mut fmt::Formatter<W>) -> fmt::Result {
        match self {
            Place::Top => f.write_str("the topology"),
            Place::Routers => f.write_str("`border_routers`"),
            Place::Router(name) => write!(f, "border router {name:?}"),
            Place::Interface(id, router) => write!(f, "interface {id:?} of {router:?}"),
            Place::Underlay(id, router) => write!(
                f,
                "the underlay of interface {id:?} of {router:?}"
            ),
            Place::Bfd(id, router) => write!(f, "`bfd` of interface {id:?} of {router:?}"),
            Place::Control(name) => write!(f, "control service {name:?}"),
            Place::Discovery(name) => write!(f, "discovery service {name:?}"),
        }
    }
}

impl fmt::Display for Refusal<'_> {
    fn fmt<W: fmt::Write>(&self, f: &mut fmt::Formatter<W>) -> fmt::Result {
        let Refusal {
            place,
            key,
            found,
            wanted,
        } = self;
        match found {
            Found::Nothing => write!(f, "{place} has no {key:?}")?,
            Found::Text(text) => write!(f, "{key:?} of {place} is {text:?}")?,
            Found::Other => write!(f, "{key:?} of {place} is of another type")?,
        }
        write!(f, "; wanted: {wanted}")
    }
}
