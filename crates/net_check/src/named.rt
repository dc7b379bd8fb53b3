//! Routers and their links by the names of their files, and values as they are written in a configuration.

ghost use Rattle.std.specs.Prelude.{◌≡◌, Some, codes, map, option_map, string_bytes};
ghost use Rattle.net_check.specs.Words as words;
ghost use Rattle.net_laws.specs.Net.{opposite};

use net_laws::{End, Net};
use process_packet::{Config, Link, PortRange};
use segment_switch::LinkKind;
use std::fmt;

/// An ISD-AS number.
#[derive(Clone, Copy)]
pub(crate) struct IsdAs(pub(crate) u16, pub(crate) u64);

#[tactic(auto, unfolding(crate::specs::Words::isd_as_text))]
impl fmt::Display for IsdAs {
    ghost output = { λ n. Some (words.isd_as_text n.0 n.1) };

    fn fmt<W: fmt::Write>(&self, f: &mut fmt::Formatter<W>) -> fmt::Result {
        let IsdAs(isd, autonomous_system) = *self;
        if autonomous_system <= 4294967295 {
            return write!(f, "{isd}-{autonomous_system}");
        }
        let high = autonomous_system / 4294967296;
        let middle = autonomous_system / 65536 % 65536;
        let low = autonomous_system % 65536;
        write!(f, "{isd}-{high:x}:{middle:x}:{low:x}")
    }
}

/// Ports for applications on end hosts.
#[derive(Clone, Copy)]
pub(crate) struct Ports(pub(crate) Option<PortRange>);

#[tactic(auto, unfolding(crate::specs::Words::range_text))]
impl fmt::Display for Ports {
    ghost output = { λ p. Some (words.ports_text p.0) };

    fn fmt<W: fmt::Write>(&self, f: &mut fmt::Formatter<W>) -> fmt::Result {
        match self.0 {
            Some(PortRange { first, last }) => write!(f, "[{first}, {last}]"),
            None => f.write_str("missing"),
        }
    }
}

/// A kind of link.
#[derive(Clone, Copy)]
pub(crate) struct Kind(pub(crate) LinkKind);

impl fmt::Display for Kind {
    ghost output = { λ k. Some (words.kind_text k.0) };

    fn fmt<W: fmt::Write>(&self, f: &mut fmt::Formatter<W>) -> fmt::Result {
        f.write_str(match self.0 {
            LinkKind::Core => "\"core\"",
            LinkKind::Parent => "\"parent\"",
            LinkKind::Child => "\"child\"",
        })
    }
}

/// The kind that the other end of a link of this kind has.
#[derive(Clone, Copy)]
pub(crate) struct Opposite(pub(crate) LinkKind);

impl fmt::Display for Opposite {
    ghost output = { λ k. Some (words.kind_text (opposite k.0)) };

    fn fmt<W: fmt::Write>(&self, f: &mut fmt::Formatter<W>) -> fmt::Result {
        match self.0 {
            LinkKind::Core => Kind(LinkKind::Core).fmt(f),
            LinkKind::Parent => Kind(LinkKind::Child).fmt(f),
            LinkKind::Child => Kind(LinkKind::Parent).fmt(f),
        }
    }
}

/// A router and the name of its file.
#[derive(Clone, Copy)]
pub(crate) struct Named<'a> {
    /// The name of its file.
    pub(crate) name: &'a str,
    /// What it is told.
    pub(crate) config: &'a Config,
}

impl Named<'_> {
    ghost use Rattle.std.specs.Prelude.{◌≡◌};
    ghost use Rattle.net_check.specs.Words as words;

    /// The AS of the router.
    pub(crate) fn isd_as(&self) -> IsdAs
        ensures { words.number_text result ≡ words.as_text (words.named self.now) }
    {
        IsdAs(self.config.isd, self.config.autonomous_system)
    }
}

/// The name of the file at a place, and `nothing` where there is none.
fn name_at(names: &[String], place: usize) -> &str
    ensures { result.now ≡ words.name_at (map string_bytes names.now) place }
{
    match names.get(place) {
        Some(name) => name.as_str(),
        None => "nothing",
    }
}

/// The router at a place.
pub(crate) fn named_at<'a>(net: &'a Net, names: &'a [String], place: usize) -> Option<Named<'a>>
    ensures { option_map words.named result
        ≡ words.named_at net.now.configs.items (map string_bytes names.now) place }
{
    let config = net.configs.get(place)?;
    let name = name_at(names, place);
    Some(Named { name, config })
}

/// An end of a wire, its link and its router.
#[derive(Clone, Copy)]
pub(crate) struct NamedEnd<'a> {
    /// Its router.
    pub(crate) router: Named<'a>,
    /// Its link.
    pub(crate) link: &'a Link,
}

#[tactic(auto, unfolding(crate::specs::Words::end_text))]
impl fmt::Display for NamedEnd<'_> {
    ghost output = { λ e. Some (words.end_text (words.named_end e)) };

    fn fmt<W: fmt::Write>(&self, f: &mut fmt::Formatter<W>) -> fmt::Result {
        write!(f, "link {} in {}", self.link.id, self.router.name)
    }
}

/// The link that an end names.
pub(crate) fn end_at<'a>(net: &'a Net, names: &'a [String], end: End) -> Option<NamedEnd<'a>>
    ensures { option_map words.named_end result
        ≡ words.end_at net.now.configs.items (map string_bytes names.now) end }
{
    let router = named_at(net, names, end.router)?;
    let link = router.config.own_link(end.link)?;
    Some(NamedEnd { router, link })
}
