//! Wires between the routers of a net.

ghost use Rattle.std.specs.Prelude.{◌≡◌};

use net_laws::{End, Wire};

/// A link of the router of a number.
pub fn end(router: usize, link: u16) -> End
    ensures { (result.router ≡ router) × (result.link ≡ link) }
{
    End { router, link }
}

pub fn wire(one: End, other: End) -> Wire
    ensures { (result.one ≡ one) × (result.other ≡ other) }
{
    Wire { one, other }
}
