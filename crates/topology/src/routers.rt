//! The border routers of an AS: the interfaces of the one that is named, and those of the others.
ghost use Rattle.std.specs.Prelude.{◌≡◌, ◌++◌, OnOk, Some, map};
ghost use Rattle.serde_json.specs.View.{members_view, view};
ghost use Rattle.topology.specs.Interface.{link_values};
ghost use Rattle.topology.specs.LeftOut.{left};
ghost use Rattle.topology.specs.Outcome.{Gives, joined};
ghost use Rattle.topology.specs.Place.{named};
ghost use Rattle.topology.specs.Routers.{left_at, left_in, links_at, links_in, peer_at, peers_at, peers_beside, peers_in, peers_unless, siblings_at, siblings_beside, siblings_by, siblings_in, siblings_unless, timer_in, timers_of};

use crate::entry::{Members, address_at, object_if_there};
use crate::fault::{Place, TopologyFault};
use crate::interface::{Carried, Interface, Relation, id_of, interface_of, relation_of};
use crate::left_out::LeftOut;
use process_packet::{Sibling, Underlay};
use serde_json::Value;
use std::alloc::{AllocError, Global};

/// Adds a timer of BFD to what is left out, if it is told.
#[tactic(auto, using(crate::proofs::ListLemmas::map_push, crate::proofs::ListLemmas::joined_nothing), unfolding(crate::specs::Routers::timer_in))]
fn add_timer<'t>(
    left_out: &mut Vec<LeftOut<'t>>,
    place: Place<'t>,
    bfd: &'t Value,
    key: &'static str,
) -> Result<(), AllocError>
    ensures { OnOk result
        (map left left_out.new.items ≡ map left left_out.old.items ++ timer_in (named place.entry) (view bfd.now) key.now) }
{
    let Some(_timer) = bfd.get(key) else {
        return Ok(());
    };
    left_out.push(LeftOut::Timer(place, key))?;
    Ok(())
}

/// Adds the timers of BFD that an interface tells to what is left out.
#[tactic(auto, using(crate::proofs::ListLemmas::map_push, crate::proofs::ListLemmas::joined_nothing), unfolding(crate::specs::Routers::timers_of))]
fn add_timers<'t>(
    left_out: &mut Vec<LeftOut<'t>>,
    id: &'t str,
    router: &'t str,
    interface: &'t Value,
) -> Result<(), AllocError>
    ensures { OnOk result
        (map left left_out.new.items ≡ map left left_out.old.items ++ timers_of router.now id.now (view interface.now)) }
{
    let Some(bfd) = interface.get("bfd") else {
        return Ok(());
    };
    let place = Place::Bfd(id, router);
    add_timer(left_out, place, bfd, "detect_mult")?;
    add_timer(left_out, place, bfd, "desired_min_tx_interval")?;
    add_timer(left_out, place, bfd, "required_min_rx_interval")?;
    Ok(())
}

/// Adds the link of an interface, or tells what isn't carried over.
#[tactic(auto, using(crate::proofs::ListLemmas::map_push, crate::proofs::ListLemmas::joined_nothing), unfolding(crate::specs::Routers::links_at, crate::specs::Routers::left_at))]
fn add_interface<'t>(
    links: &mut Vec<Interface<'t>>,
    left_out: &mut Vec<LeftOut<'t>>,
    id: &'t str,
    router: &'t str,
    value: &'t Value,
) -> Result<(), TopologyFault<'t>>
    ensures links { Gives (λ _. map link_values links.new.items) result
        (joined (Some (map link_values links.old.items)) (links_at router.now id.now (view value.now))) }
    ensures left_out { OnOk result
        (map left left_out.new.items ≡ map left left_out.old.items ++ left_at router.now id.now (view value.now)) }
{
    match interface_of(id, router, value)? {
        Carried::Link(link) => {
            links.push(link)?;
            add_timers(left_out, id, router, value)?;
            Ok(())
        }
        Carried::Not(reason) => {
            left_out.push(reason)?;
            Ok(())
        }
    }
}

/// The links of an object of a router's interfaces. What isn't carried over is added to what is
/// left out.
pub(crate) fn links_of<'t>(
    alloc: Global,
    left_out: &mut Vec<LeftOut<'t>>,
    router: &'t str,
    members: &'t Members,
) -> Result<Vec<Interface<'t>>, TopologyFault<'t>>
    ensures links { Gives (λ links. map link_values links.items) result (links_in router.now (members_view members.now.entries)) }
    ensures left_out { OnOk result
        (map left left_out.new.items ≡ map left left_out.old.items ++ left_in router.now (members_view members.now.entries)) }
{
    let mut links = Vec::new(alloc);
    for (key, value) in members {
        add_interface(&mut links, left_out, key.as_str(), router, value)?;
    }
    Ok(links)
}

/// Adds an interface of another router, with this address within the AS, or tells that its link is
/// a peering link.
#[tactic(auto, using(crate::proofs::ListLemmas::map_push, crate::proofs::ListLemmas::joined_nothing), unfolding(crate::specs::Routers::siblings_by, crate::specs::Routers::sibling_of, crate::specs::Routers::peer_at))]
fn add_sibling<'t>(
    siblings: &mut Vec<Sibling>,
    left_out: &mut Vec<LeftOut<'t>>,
    id: &'t str,
    router: &'t str,
    at: Underlay,
    value: &'t Value,
) -> Result<(), TopologyFault<'t>>
    ensures siblings { Gives (λ _. siblings.new.items) result
        (joined (Some siblings.old.items) (siblings_by at id.now (view value.now))) }
    ensures left_out { OnOk result
        (map left left_out.new.items ≡ map left left_out.old.items ++ peer_at router.now id.now (view value.now)) }
{
    let number = id_of(id, router)?;
    match relation_of(id, router, value)? {
        Relation::Kind(kind) => {
            siblings.push(Sibling {
                id: number,
                kind,
                at,
            })?;
            Ok(())
        }
        Relation::Peer => {
            left_out.push(LeftOut::Peering(Place::Interface(id, router)))?;
            Ok(())
        }
    }
}

/// Adds the interfaces of another router, with this address within the AS.
fn add_interfaces<'t>(
    siblings: &mut Vec<Sibling>,
    left_out: &mut Vec<LeftOut<'t>>,
    router: &'t str,
    at: Underlay,
    members: &'t Members,
) -> Result<(), TopologyFault<'t>>
    ensures siblings { Gives (λ _. siblings.new.items) result
        (joined (Some siblings.old.items) (siblings_in at (members_view members.now.entries))) }
    ensures left_out { OnOk result
        (map left left_out.new.items ≡ map left left_out.old.items ++ peers_in router.now (members_view members.now.entries)) }
{
    for (key, value) in members {
        add_sibling(siblings, left_out, key.as_str(), router, at, value)?;
    }
    Ok(())
}

/// Adds the interfaces of another router.
#[tactic(auto, using(crate::proofs::ListLemmas::map_push, crate::proofs::ListLemmas::joined_nothing), unfolding(crate::specs::Routers::siblings_at, crate::specs::Routers::peers_at))]
fn add_router<'t>(
    siblings: &mut Vec<Sibling>,
    left_out: &mut Vec<LeftOut<'t>>,
    router: &'t str,
    value: &'t Value,
) -> Result<(), TopologyFault<'t>>
    ensures siblings { Gives (λ _. siblings.new.items) result (joined (Some siblings.old.items) (siblings_at (view value.now))) }
    ensures left_out { OnOk result
        (map left left_out.new.items ≡ map left left_out.old.items ++ peers_at router.now (view value.now)) }
{
    let place = Place::Router(router);
    let at = address_at(place, value, "internal_addr")?;
    match object_if_there(place, value, "interfaces")? {
        Some(members) => add_interfaces(siblings, left_out, router, at, members),
        None => Ok(()),
    }
}

/// Adds the interfaces of a router, unless it is the one that is named.
#[tactic(auto, using(crate::proofs::ListLemmas::map_push, crate::proofs::ListLemmas::joined_nothing), unfolding(crate::specs::Routers::siblings_unless, crate::specs::Routers::peers_unless))]
fn add_unless_own<'t>(
    siblings: &mut Vec<Sibling>,
    left_out: &mut Vec<LeftOut<'t>>,
    own: &'t str,
    router: &'t str,
    value: &'t Value,
) -> Result<(), TopologyFault<'t>>
    ensures siblings { Gives (λ _. siblings.new.items) result
        (joined (Some siblings.old.items) (siblings_unless own.now router.now (view value.now))) }
    ensures left_out { OnOk result
        (map left left_out.new.items ≡ map left left_out.old.items ++ peers_unless own.now router.now (view value.now)) }
{
    if router == own {
        Ok(())
    } else {
        add_router(siblings, left_out, router, value)
    }
}

/// The interfaces of all routers but the one that is named. What isn't carried over is added to
/// what is left out.
pub(crate) fn siblings_beside<'t>(
    alloc: Global,
    left_out: &mut Vec<LeftOut<'t>>,
    own: &'t str,
    routers: &'t Members,
) -> Result<Vec<Sibling>, TopologyFault<'t>>
    ensures siblings { Gives (λ siblings. siblings.items) result (siblings_beside own.now (members_view routers.now.entries)) }
    ensures left_out { OnOk result
        (map left left_out.new.items ≡ map left left_out.old.items ++ peers_beside own.now (members_view routers.now.entries)) }
{
    let mut siblings = Vec::new(alloc);
    for (key, value) in routers {
        add_unless_own(&mut siblings, left_out, own, key.as_str(), value)?;
    }
    Ok(siblings)
}
