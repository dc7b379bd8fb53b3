//! The servers of an AS: its control service and its discovery service.
ghost use Rattle.std.specs.Prelude.{◌≡◌, ◌++◌, OnOk, Some, map};
ghost use Rattle.serde_json.specs.View.{members_view, view};
ghost use Rattle.topology.specs.LeftOut.{left};
ghost use Rattle.topology.specs.Outcome.{Gives, joined};
ghost use Rattle.topology.specs.Place.{named};
ghost use Rattle.topology.specs.Servers.{after_first, first_in, further_in, further_of, key_of, left_of_services, number_of, place_of, service_of, services_of};

use crate::entry::{Members, address_at, object_if_there};
use crate::fault::{Place, TopologyFault};
use crate::left_out::LeftOut;
use process_packet::Service;
use serde_json::Value;
use std::alloc::{AllocError, Global};

/// A service that a topology names.
#[derive(Clone, Copy)]
enum Kind {
    Control,
    Discovery,
}

/// The key of a service's servers.
fn key_of(kind: Kind) -> &'static str
    ensures { result.now ≡ key_of kind }
{
    match kind {
        Kind::Control => "control_service",
        Kind::Discovery => "discovery_service",
    }
}

/// The number of a service, by which packets address it.
fn number_of(kind: Kind) -> u16
    ensures { result ≡ number_of kind }
{
    match kind {
        Kind::Control => 2,
        Kind::Discovery => 1,
    }
}

/// A server of a service.
fn place_of<'t>(kind: Kind, name: &'t str) -> Place<'t>
    ensures { named result ≡ place_of kind name.now }
{
    match kind {
        Kind::Control => Place::Control(name),
        Kind::Discovery => Place::Discovery(name),
    }
}

/// Adds the service at the first of the servers, if there is one.
#[tactic(auto, using(crate::proofs::ListLemmas::map_push, crate::proofs::ListLemmas::joined_nothing))]
fn add_first<'t>(
    services: &mut Vec<Service>,
    kind: Kind,
    servers: &'t Members,
) -> Result<(), TopologyFault<'t>>
    ensures { Gives (λ _. services.new.items) result
        (joined (Some services.old.items) (first_in kind (members_view servers.now.entries))) }
{
    let Some((name, server)) = servers.iter().next() else {
        return Ok(());
    };
    let at = address_at(place_of(kind, name.as_str()), server, "addr")?;
    services.push(Service {
        number: number_of(kind),
        at,
    })?;
    Ok(())
}

/// Adds the servers after the first one to what is left out.
fn add_further<'t>(
    left_out: &mut Vec<LeftOut<'t>>,
    kind: Kind,
    servers: &'t Members,
) -> Result<(), AllocError>
    ensures { OnOk result (map left left_out.new.items
        ≡ map left left_out.old.items ++ further_in kind (after_first (members_view servers.now.entries))) }
{
    let mut further = servers.iter();
    let Some(_first) = further.next() else {
        return Ok(());
    };
    for (name, _server) in further {
        left_out.push(LeftOut::Further(place_of(kind, name.as_str())))?;
    }
    Ok(())
}

/// Adds the service of this kind, if there is one, and its further servers to what is left out.
#[tactic(auto, using(crate::proofs::ListLemmas::map_push, crate::proofs::ListLemmas::joined_nothing), unfolding(crate::specs::Servers::service_of, crate::specs::Servers::further_of))]
fn add_service<'t>(
    services: &mut Vec<Service>,
    left_out: &mut Vec<LeftOut<'t>>,
    kind: Kind,
    value: &'t Value,
) -> Result<(), TopologyFault<'t>>
    ensures services { Gives (λ _. services.new.items) result (joined (Some services.old.items) (service_of kind (view value.now))) }
    ensures left_out { OnOk result (map left left_out.new.items ≡ map left left_out.old.items ++ further_of kind (view value.now)) }
{
    match object_if_there(Place::Top, value, key_of(kind))? {
        Some(servers) => {
            add_first(services, kind, servers)?;
            add_further(left_out, kind, servers)?;
            Ok(())
        }
        None => Ok(()),
    }
}

/// The services of an AS: its discovery service and its control service, each where there is one.
/// What isn't carried over is added to what is left out.
#[tactic(auto, using(crate::proofs::ListLemmas::map_push, crate::proofs::ListLemmas::joined_nothing), unfolding(crate::specs::Servers::services_of, crate::specs::Servers::left_of_services))]
pub(crate) fn services_of<'t>(
    alloc: Global,
    left_out: &mut Vec<LeftOut<'t>>,
    value: &'t Value,
) -> Result<Vec<Service>, TopologyFault<'t>>
    ensures services { Gives (λ services. services.items) result (services_of (view value.now)) }
    ensures left_out { OnOk result (map left left_out.new.items ≡ map left left_out.old.items ++ left_of_services (view value.now)) }
{
    let mut services = Vec::new(alloc);
    add_service(&mut services, left_out, Kind::Discovery, value)?;
    add_service(&mut services, left_out, Kind::Control, value)?;
    Ok(services)
}
