//! How the datagrams of an order arrive.

ghost use Rattle.std.specs.Prelude.{◌≡◌, ◌==◌, find};
ghost use Rattle.cli_io.specs.ArrivalContext.{usual_source};

use process_packet::{Config, Link, Underlay};

/// How the datagrams of an order arrive: by which link, from whom and when.
#[derive(Clone, Copy)]
pub struct ArrivalContext {
    /// The link; 0 is the internal network.
    pub link: u16,
    /// The underlay's source.
    pub source: Underlay,
    /// The moment, in seconds since 1970.
    pub moment: u64,
}

/// The link with a number.
fn link_with(links: &[Link], id: u16) -> Option<Link>
    ensures { result ≡ find (λ own. own.id == id) links.now }
{
    links.iter().copied().find(|own| own.id == id)
}

/// The source of what arrives on a link, where none is named: the router at its other end, and of what
/// comes from inside this router's own internal address. There is none where there is no such link.
pub fn usual_source(config: &Config, link: u16) -> Option<Underlay>
    ensures { result ≡ usual_source config.now link }
{
    if link == 0 {
        Some(config.internal)
    } else {
        link_with(config.links.as_slice(), link).map(|own| own.remote)
    }
}
