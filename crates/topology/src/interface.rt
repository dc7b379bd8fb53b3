//! An interface of a border router.

ghost use Rattle.std.specs.Prelude.{◌≡◌, option_map};
ghost use Rattle.serde_json.specs.View.{view};
ghost use Rattle.topology.specs.Interface.{carried_values, id_of, interface_of, link_of, link_values, local_of, of_kind, provider_of, public_of, relation_at, relation_of};
ghost use Rattle.topology.specs.Outcome.{taken};

use crate::bfd::bfd_of;
use crate::entry::{address_at, isd_as_at, refused, text_at};
use crate::fault::{Found, Place, Refusal};
use crate::left_out::LeftOut;
use crate::port_range::is_word;
use process_packet::Underlay;
use segment_switch::LinkKind;
use serde_json::Value;
use text_values::pieces::read_number;

/// What is wanted at `link_to`.
const RELATION: &str = "`core`, `parent`, `child` or `peer`";

/// A link of the router to another AS.
#[derive(Clone, Copy)]
pub struct Interface<'t> {
    /// The number of the interface, at least 1.
    pub id: u16,
    /// What the AS at its other end is.
    pub kind: LinkKind,
    /// The address and port of this router on the link.
    pub local: Underlay,
    /// The address and port of the neighbour.
    pub remote: Underlay,
    /// The ISD-AS of the AS at its other end, as it is written.
    pub neighbor: &'t str,
    /// Whether that AS's router runs BFD.
    pub bfd: bool,
}

/// What a word says of the AS at the other end of a link.
#[derive(Clone, Copy)]
pub(crate) enum Relation {
    Kind(LinkKind),
    Peer,
}

/// An interface, or why it isn't carried over.
#[derive(Clone, Copy)]
pub(crate) enum Carried<'t> {
    Link(Interface<'t>),
    Not(LeftOut<'t>),
}

/// The number that the text of an interface's key is, if it is one.
fn read_id(text: &str) -> Option<u16>
    ensures { result ≡ id_of text.now }
{
    match read_number(text, u16::MAX.into()) {
        Some(0) => None,
        Some(id) => Some(id as u16),
        None => None,
    }
}

/// What a word says of the AS at the other end, in letters of either case.
fn read_relation(word: &str) -> Option<Relation>
    ensures { result ≡ relation_of word.now }
{
    if is_word("core", word) {
        Some(Relation::Kind(LinkKind::Core))
    } else if is_word("parent", word) {
        Some(Relation::Kind(LinkKind::Parent))
    } else if is_word("child", word) {
        Some(Relation::Kind(LinkKind::Child))
    } else if is_word("peer", word) {
        Some(Relation::Peer)
    } else {
        None
    }
}

/// The number of an interface, by its key in the object of its router's interfaces.
pub(crate) fn id_of<'t>(id: &'t str, router: &'t str) -> Result<u16, Refusal<'t>>
    ensures { taken (λ number. number) result ≡ id_of id.now }
{
    match read_id(id) {
        Some(id) => Ok(id),
        None => Err(Refusal {
            place: Place::Router(router),
            key: "interfaces",
            found: Found::Text(id),
            wanted: "numbers from 1 to 65535 as keys",
        }),
    }
}

/// What the AS at the other end of an interface is.
#[tactic(auto, unfolding(crate::specs::Interface::relation_at))]
pub(crate) fn relation_of<'t>(
    id: &'t str,
    router: &'t str,
    value: &'t Value,
) -> Result<Relation, Refusal<'t>>
    ensures { taken (λ relation. relation) result ≡ relation_at (view value.now) }
{
    let place = Place::Interface(id, router);
    let word = text_at(place, value, "link_to", RELATION)?;
    match read_relation(word) {
        Some(relation) => Ok(relation),
        None => Err(refused(place, "link_to", value.get("link_to"), RELATION)),
    }
}

/// The name of an underlay that isn't UDP over IP, if there is one.
#[tactic(auto, unfolding(crate::specs::Interface::provider_of))]
fn provider_of<'t>(place: Place<'t>, underlay: &'t Value) -> Result<Option<&'t str>, Refusal<'t>>
    ensures { taken (λ name. option_map (λ text. text.now) name) result ≡ provider_of (view underlay.now) }
{
    if underlay.get("provider").is_none() {
        return Ok(None);
    }
    let name = text_at(place, underlay, "provider", "a text")?;
    if name == "udpip" {
        Ok(None)
    } else {
        Ok(Some(name))
    }
}

/// The address at `public`, as older files have it; none where `bind` has another IP address for it.
#[tactic(auto, unfolding(crate::specs::Interface::public_of))]
fn public_of<'t>(place: Place<'t>, underlay: &'t Value) -> Result<Underlay, Refusal<'t>>
    ensures { taken (λ address. address) result ≡ public_of (view underlay.now) }
{
    let bind = underlay.get("bind");
    if bind.is_some() {
        return Err(refused(
            place,
            "bind",
            bind,
            "`local`, with this address and the port",
        ));
    }
    address_at(place, underlay, "public")
}

/// The address of this router's end: `local`, or `public` in older files.
#[tactic(auto, unfolding(crate::specs::Interface::local_of))]
fn local_of<'t>(place: Place<'t>, underlay: &'t Value) -> Result<Underlay, Refusal<'t>>
    ensures { taken (λ address. address) result ≡ local_of (view underlay.now) }
{
    if underlay.get("local").is_none() && underlay.get("public").is_some() {
        return public_of(place, underlay);
    }
    address_at(place, underlay, "local")
}

/// An interface of this kind over an underlay of UDP over IP.
#[tactic(auto, unfolding(crate::specs::Interface::link_of))]
fn link_of<'t>(
    id: &'t str,
    router: &'t str,
    kind: LinkKind,
    value: &'t Value,
    underlay: &'t Value,
) -> Result<Interface<'t>, Refusal<'t>>
    ensures { taken link_values result ≡ link_of id.now kind (view value.now) (view underlay.now) }
{
    let place = Place::Underlay(id, router);
    let number = id_of(id, router)?;
    let local = local_of(place, underlay)?;
    let remote = address_at(place, underlay, "remote")?;
    let neighbor = isd_as_at(Place::Interface(id, router), value, "isd_as")?;
    let bfd = bfd_of(id, router, value)?;
    Ok(Interface {
        id: number,
        kind,
        local,
        remote,
        neighbor,
        bfd,
    })
}

/// An interface of this kind, or why it isn't carried over.
#[tactic(auto, unfolding(crate::specs::Interface::of_kind))]
fn of_kind<'t>(
    id: &'t str,
    router: &'t str,
    kind: LinkKind,
    value: &'t Value,
) -> Result<Carried<'t>, Refusal<'t>>
    ensures { taken carried_values result ≡ of_kind router.now id.now kind (view value.now) }
{
    let place = Place::Interface(id, router);
    let Some(underlay) = value.get("underlay") else {
        return Err(refused(place, "underlay", None, "an object"));
    };
    if !underlay.is_object() {
        return Err(refused(place, "underlay", Some(underlay), "an object"));
    }
    match provider_of(Place::Underlay(id, router), underlay)? {
        Some(name) => Ok(Carried::Not(LeftOut::Provider(place, name))),
        None => {
            let link = link_of(id, router, kind, value, underlay)?;
            Ok(Carried::Link(link))
        }
    }
}

/// The interface of a router that the value at the text of its number tells, or why it isn't
/// carried over.
#[tactic(auto, unfolding(crate::specs::Interface::interface_of))]
pub(crate) fn interface_of<'t>(
    id: &'t str,
    router: &'t str,
    value: &'t Value,
) -> Result<Carried<'t>, Refusal<'t>>
    ensures { taken carried_values result ≡ interface_of router.now id.now (view value.now) }
{
    match relation_of(id, router, value)? {
        Relation::Kind(kind) => of_kind(id, router, kind, value),
        Relation::Peer => Ok(Carried::Not(LeftOut::Peering(Place::Interface(id, router)))),
    }
}
