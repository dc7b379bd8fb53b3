//! What doesn't fit in a net, in words: the files, the keys and their values.

ghost use Rattle.std.specs.Prelude.{◌≡◌, ◌==◌, IfOk, find, map, option_copied, option_map, string_bytes};
ghost use Rattle.net_check.specs.Words as words;

use crate::named::{IsdAs, Kind, Named, NamedEnd, Opposite, Ports, end_at, named_at};
use config_warnings::Shown;
use net_laws::{Difference, End, Misfit, Mismatch, Net, Wire};
use process_packet::{Config, Link, Service, Sibling};
use scion_header::Domain;
use std::alloc::{AllocError, Global};

/// What is told where a place names no file, no link and no value.
fn nothing(alloc: Global) -> Result<String, AllocError>
    ensures { IfOk result (λ text. string_bytes text ≡ words.nothing) }
{
    String::from_str(alloc, "nothing")
}

/// The service with a number.
fn service(config: &Config, number: u16) -> Option<&Service>
    ensures { option_copied result ≡ find (λ s. s.number == number) config.now.services.items }
{
    config
        .services
        .iter()
        .find(|service| service.number == number)
}

/// Two routers of one AS.
#[derive(Clone, Copy)]
struct Pair<'a> {
    one: Named<'a>,
    other: Named<'a>,
}

impl Pair<'_> {
    ghost use Rattle.std.specs.Prelude.{◌≡◌, IfOk, string_bytes};
    ghost use Rattle.net_check.specs.Words as words;

    /// The words of a service that they have at different places.
    #[tactic(auto, unfolding(crate::specs::Words::moved_text))]
    fn moved(&self, alloc: Global, here: &Service, there: &Service) -> Result<String, AllocError>
        ensures { IfOk result (λ text. string_bytes text ≡ words.moved_text (words.pair self.now) here.now there.now) }
    {
        format!(in alloc;
            "`at` of service {} is {} in {}, and {} in {}",
            here.number,
            Shown(&here.at),
            self.one.name,
            Shown(&there.at),
            self.other.name
        )
    }

    /// The words of a service that only the one has.
    #[tactic(auto, unfolding(crate::specs::Words::only_here_text))]
    fn only_here(&self, alloc: Global, number: u16) -> Result<String, AllocError>
        ensures { IfOk result (λ text. string_bytes text ≡ words.only_here_text (words.pair self.now) number) }
    {
        let (one, other) = (self.one.name, self.other.name);
        format!(in alloc; "service {number} of {one} is missing in {other}")
    }

    /// The words of a service that they don't have in common.
    fn service(&self, alloc: Global, number: u16) -> Result<String, AllocError>
        ensures { IfOk result (λ text. string_bytes text ≡ words.service_text (words.pair self.now) number) }
    {
        match (
            service(self.one.config, number),
            service(self.other.config, number),
        ) {
            (Some(here), Some(there)) => self.moved(alloc, here, there),
            _ => self.only_here(alloc, number),
        }
    }

    /// The words of a link of the other that the one doesn't list.
    #[tactic(auto, unfolding(crate::specs::Words::unlisted_text))]
    fn unlisted(&self, alloc: Global, number: u16) -> Result<String, AllocError>
        ensures { IfOk result (λ text. string_bytes text ≡ words.unlisted_text (words.pair self.now) number) }
    {
        let (one, other) = (self.one.name, self.other.name);
        format!(in alloc; "link {number} of {other} is missing among the siblings of {one}")
    }

    /// The words of an interface that the one lists at another place than the other's.
    #[tactic(auto, unfolding(crate::specs::Words::elsewhere_text))]
    fn elsewhere(&self, alloc: Global, entry: &Sibling) -> Result<String, AllocError>
        ensures { IfOk result (λ text. string_bytes text ≡ words.elsewhere_text (words.pair self.now) entry.now) }
    {
        let (one, other) = (self.one.name, self.other.name);
        let (number, at) = (entry.id, Shown(&entry.at));
        format!(in alloc;
            "`at` of sibling {number} in {one} is {at}, and `internal` of {other}, which has that link, is {}",
            Shown(&self.other.config.internal)
        )
    }

    /// The words of an interface that the one lists as of another kind than the link that the other has.
    #[tactic(auto, unfolding(crate::specs::Words::other_kind_text))]
    fn other_kind(&self, alloc: Global, entry: &Sibling, link: &Link) -> Result<String, AllocError>
        ensures { IfOk result (λ text. string_bytes text ≡ words.other_kind_text (words.pair self.now) entry.now link.now) }
    {
        let (one, other) = (self.one.name, self.other.name);
        let (here, there) = (Kind(entry.kind), Kind(link.kind));
        format!(in alloc;
            "`kind` of sibling {} in {one} is {here}, and that of link {} in {other} is {there}",
            entry.id, link.id
        )
    }

    /// The words of an interface that the one lists otherwise than the other has it.
    fn listing(&self, alloc: Global, number: u16) -> Result<String, AllocError>
        ensures { IfOk result (λ text. string_bytes text ≡ words.listing_text (words.pair self.now) number) }
    {
        match (
            self.one.config.sibling(number),
            self.other.config.own_link(number),
        ) {
            (Some(entry), Some(link)) => {
                if entry.at == self.other.config.internal {
                    self.other_kind(alloc, entry, link)
                } else {
                    self.elsewhere(alloc, entry)
                }
            }
            _ => self.unlisted(alloc, number),
        }
    }

    /// The words of different keys.
    #[tactic(auto, unfolding(crate::specs::Words::key_text))]
    fn key(&self, alloc: Global) -> Result<String, AllocError>
        ensures { IfOk result (λ text. string_bytes text ≡ words.key_text (words.pair self.now)) }
    {
        let (one, other) = (self.one.name, self.other.name);
        format!(in alloc; "`key` of {one} is not that of {other}")
    }

    /// The words of different ports for hosts with a dispatcher.
    #[tactic(auto, unfolding(crate::specs::Words::host_port_text))]
    fn host_port(&self, alloc: Global) -> Result<String, AllocError>
        ensures { IfOk result (λ text. string_bytes text ≡ words.host_port_text (words.pair self.now)) }
    {
        let (here, there) = (self.one.config.host_port, self.other.config.host_port);
        let (one, other) = (self.one.name, self.other.name);
        format!(in alloc; "`host_port` is {here} in {one}, and {there} in {other}")
    }

    /// The words of different ports for applications.
    #[tactic(auto, unfolding(crate::specs::Words::ports_differ_text))]
    fn dispatched_ports(&self, alloc: Global) -> Result<String, AllocError>
        ensures { IfOk result (λ text. string_bytes text ≡ words.ports_differ_text (words.pair self.now)) }
    {
        let here = Ports(self.one.config.dispatched_ports);
        let there = Ports(self.other.config.dispatched_ports);
        let (one, other) = (self.one.name, self.other.name);
        format!(in alloc; "`dispatched_ports` is {here} in {one}, and {there} in {other}")
    }

    /// The words of one address of both.
    #[tactic(auto, unfolding(crate::specs::Words::internal_text))]
    fn internal(&self, alloc: Global) -> Result<String, AllocError>
        ensures { IfOk result (λ text. string_bytes text ≡ words.internal_text (words.pair self.now)) }
    {
        let (one, other) = (self.one.name, self.other.name);
        let at = Shown(&self.one.config.internal);
        format!(in alloc; "`internal` is {at} in {one} and in {other}")
    }

    /// The words of a link that both have.
    #[tactic(auto, unfolding(crate::specs::Words::same_link_text))]
    fn same_link(&self, alloc: Global, number: u16) -> Result<String, AllocError>
        ensures { IfOk result (λ text. string_bytes text ≡ words.same_link_text (words.pair self.now) number) }
    {
        let (one, other) = (self.one.name, self.other.name);
        format!(in alloc; "link {number} is in {one} and in {other}")
    }

    /// The words of what is different between them.
    fn difference(&self, alloc: Global, what: Difference) -> Result<String, AllocError>
        ensures { IfOk result (λ text. string_bytes text ≡ words.difference_text (words.pair self.now) what) }
    {
        match what {
            Difference::Key => self.key(alloc),
            Difference::HostPort => self.host_port(alloc),
            Difference::DispatchedPorts => self.dispatched_ports(alloc),
            Difference::Service(number) => self.service(alloc, number),
            Difference::Internal => self.internal(alloc),
            Difference::SameInterface(number) => self.same_link(alloc, number),
            Difference::Unlisted(number)
            | Difference::Elsewhere(number)
            | Difference::OtherKind(number) => self.listing(alloc, number),
        }
    }

    /// The words of what is different between them, and of their AS.
    #[tactic(auto, unfolding(crate::specs::Words::routers_text))]
    fn words(&self, alloc: Global, what: Difference) -> Result<String, AllocError>
        ensures { IfOk result (λ text. string_bytes text ≡ words.routers_text (words.pair self.now) what) }
    {
        let difference = self.difference(alloc, what)?;
        let isd_as = self.one.isd_as();
        format!(in alloc; "{difference}; both are of {isd_as}")
    }
}

/// The ends of a wire.
#[derive(Clone, Copy)]
struct Ends<'a> {
    one: NamedEnd<'a>,
    other: NamedEnd<'a>,
}

impl Ends<'_> {
    ghost use Rattle.std.specs.Prelude.{◌≡◌, IfOk, string_bytes};
    ghost use Rattle.net_check.specs.Words as words;

    /// The words of a link that leads to itself.
    #[tactic(auto, unfolding(crate::specs::Words::same_end_text))]
    fn same_end(&self, alloc: Global) -> Result<String, AllocError>
        ensures { IfOk result (λ text. string_bytes text ≡ words.same_end_text (words.ends self.now)) }
    {
        let (one, remote) = (self.one, Shown(&self.one.link.remote));
        format!(in alloc; "`remote` of {one} is {remote}, its own `local`")
    }

    /// The words of a link that doesn't lead to the one that leads to it.
    #[tactic(auto, unfolding(crate::specs::Words::remote_text))]
    fn remote(&self, alloc: Global) -> Result<String, AllocError>
        ensures { IfOk result (λ text. string_bytes text ≡ words.remote_text (words.ends self.now)) }
    {
        let (one, remote) = (self.one, Shown(&self.one.link.remote));
        let (other, local) = (self.other, Shown(&self.other.link.local));
        format!(in alloc;
            "`remote` of {one} is {remote}; wanted: {local}, the `local` of {other}, whose `remote` is that link's `local`"
        )
    }

    /// The words of a link whose other end doesn't see it as the opposite kind.
    #[tactic(auto, unfolding(crate::specs::Words::kinds_text))]
    fn kinds(&self, alloc: Global) -> Result<String, AllocError>
        ensures { IfOk result (λ text. string_bytes text ≡ words.kinds_text (words.ends self.now)) }
    {
        let (one, here) = (self.one, Kind(self.one.link.kind));
        let (other, there) = (self.other, Kind(self.other.link.kind));
        let wanted = Opposite(self.one.link.kind);
        format!(in alloc;
            "`kind` of {one} is {here}, and that of its other end, {other}, is {there}; wanted there: {wanted}"
        )
    }

    /// The words of a link that names this AS, which isn't that of its other end.
    #[tactic(auto, unfolding(crate::specs::Words::named_as_text))]
    fn named_as(&self, alloc: Global, domain: &Domain) -> Result<String, AllocError>
        ensures { IfOk result (λ text. string_bytes text ≡ words.named_as_text (words.ends self.now) domain.now) }
    {
        let (one, other) = (self.one, self.other);
        let here = IsdAs(domain.isd, domain.autonomous_system);
        let there = self.other.router.isd_as();
        format!(in alloc;
            "`neighbor` of {one} is {here}, and its other end, {other}, is of {there}"
        )
    }

    /// The words of a link that names another AS than that of its other end.
    fn neighbor(&self, alloc: Global) -> Result<String, AllocError>
        ensures { IfOk result (λ text. string_bytes text ≡ words.neighbor_text (words.ends self.now)) }
    {
        match &self.one.link.neighbor {
            Some(domain) => self.named_as(alloc, domain),
            None => nothing(alloc),
        }
    }

    /// The same ends, the other one first.
    fn flipped(&self) -> Self
        ensures { words.ends result ≡ words.flipped (words.ends self.now) }
    {
        Ends {
            one: self.other,
            other: self.one,
        }
    }

    /// The words of why they don't fit.
    fn words(&self, alloc: Global, what: Mismatch) -> Result<String, AllocError>
        ensures { IfOk result (λ text. string_bytes text ≡ words.mismatch_text (words.ends self.now) what) }
    {
        match what {
            Mismatch::NoLink => nothing(alloc),
            Mismatch::SameEnd => self.same_end(alloc),
            Mismatch::Remote => self.remote(alloc),
            Mismatch::RemoteBack => self.flipped().remote(alloc),
            Mismatch::Kinds => self.kinds(alloc),
            Mismatch::Neighbor => self.neighbor(alloc),
            Mismatch::NeighborBack => self.flipped().neighbor(alloc),
        }
    }

    /// The words of a link with these two other ends.
    #[tactic(auto, unfolding(crate::specs::Words::shared_text))]
    fn shared(&self, alloc: Global, at: &NamedEnd<'_>) -> Result<String, AllocError>
        ensures { IfOk result (λ text. string_bytes text ≡ words.shared_text (words.named_end at.now) (words.ends self.now)) }
    {
        let (one, other) = (self.one, self.other);
        let local = Shown(&self.one.link.local);
        format!(in alloc; "`local` is {local} of {one} and of {other}: {at} has two other ends")
    }
}

/// The end that two wires have in common, and their other ends.
#[derive(Clone, Copy)]
struct CommonEnd {
    at: End,
    one: End,
    other: End,
}

/// The end that two wires have in common, and their other ends.
fn common_end(one: &Wire, other: &Wire) -> CommonEnd
    ensures { words.common result.at result.one result.other ≡ words.common_end one.now other.now }
{
    let (at, first, second) = if one.one == other.one {
        (one.one, one.other, other.other)
    } else if one.one == other.other {
        (one.one, one.other, other.one)
    } else if one.other == other.one {
        (one.other, one.one, other.other)
    } else {
        (one.other, one.one, other.one)
    };
    CommonEnd {
        at,
        one: first,
        other: second,
    }
}

/// The words of two routers that don't fit.
fn of_routers(
    alloc: Global,
    one: Option<Named<'_>>,
    other: Option<Named<'_>>,
    what: Difference,
) -> Result<String, AllocError>
    ensures { IfOk result (λ text. string_bytes text
        ≡ words.of_routers (option_map words.named one.entry) (option_map words.named other.entry) what) }
{
    match (one, other) {
        (Some(one), Some(other)) => Pair { one, other }.words(alloc, what),
        _ => nothing(alloc),
    }
}

/// The words of a wire that doesn't fit.
fn of_wire(
    alloc: Global,
    one: Option<NamedEnd<'_>>,
    other: Option<NamedEnd<'_>>,
    what: Mismatch,
) -> Result<String, AllocError>
    ensures { IfOk result (λ text. string_bytes text
        ≡ words.of_wire (option_map words.named_end one.entry) (option_map words.named_end other.entry) what) }
{
    match (one, other) {
        (Some(one), Some(other)) => Ends { one, other }.words(alloc, what),
        _ => nothing(alloc),
    }
}

/// The words of a link with two other ends.
fn of_shared(
    alloc: Global,
    net: &Net,
    names: &[String],
    ends: &CommonEnd,
) -> Result<String, AllocError>
    ensures { IfOk result (λ text. string_bytes text
        ≡ words.of_shared net.now.configs.items (map string_bytes names.now) (words.common ends.now.at ends.now.one ends.now.other)) }
{
    match (
        end_at(net, names, ends.at),
        end_at(net, names, ends.one),
        end_at(net, names, ends.other),
    ) {
        (Some(at), Some(one), Some(other)) => Ends { one, other }.shared(alloc, &at),
        _ => nothing(alloc),
    }
}

/// A misfit of a net in words: the files, the key and its values. `names` are those of the files, in the order of the
/// net's configurations. Of a misfit of another net it may tell `nothing`.
pub fn words_of(
    alloc: Global,
    net: &Net,
    names: &[String],
    misfit: Misfit,
) -> Result<String, AllocError>
    ensures { IfOk result (λ text. string_bytes text
        ≡ words.words_of net.now.configs.items (map string_bytes names.now) misfit) }
{
    match misfit {
        Misfit::Routers { one, other, what } => {
            let (one, other) = (named_at(net, names, one), named_at(net, names, other));
            of_routers(alloc, one, other, what)
        }
        Misfit::Wire { wire, what } => {
            let (one, other) = (end_at(net, names, wire.one), end_at(net, names, wire.other));
            of_wire(alloc, one, other, what)
        }
        Misfit::Shared { one, other } => of_shared(alloc, net, names, &common_end(&one, &other)),
    }
}

/// A link whose other end is in none of the files, in words; `name` is that of the file that has it.
#[tactic(auto, unfolding(crate::specs::Words::open_text))]
pub fn open_words(alloc: Global, name: &str, link: &Link) -> Result<String, AllocError>
    ensures { IfOk result (λ text. string_bytes text ≡ words.open_text name.now link.now) }
{
    let (number, remote) = (link.id, Shown(&link.remote));
    format!(in alloc; "link {number} in {name} leads to {remote}, which is in none of these files")
}
