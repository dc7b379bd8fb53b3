//! The walk of a packet through a net of border routers.

ghost use Rattle.std.specs.Prelude.{All, ◌≡◌, ◌⊎◌, ◌<◌, ◌^◌, ◌++◌, ◌∷◌, [], ℕ, List, Some, IfOk, IfSome, OnOk, length, map, option_map};
ghost use Rattle.field_rows.specs.Place.{IsBytes};
ghost use Rattle.net_laws.specs.Net.{Agrees, net_of, router_at};
ghost use Rattle.net_walks.specs.Stops.{IsStop, came_by, came_so, came_to, most_stops, sent_from, next_stop, stops_from};
ghost use Rattle.net_walks.specs.Coming as way;
ghost use Rattle.net_walks.specs.OneHopWalk.{Crosses, one_hop_starts_at};
ghost use Rattle.net_walks.specs.Outcomes.{IsDeliveredBy, IsRepliedTo, IsReply};
ghost use Rattle.net_walks.specs.Visits.{ReturnsTo, starts_at};
ghost use Rattle.scion_packet.specs.OneHop.{OneHopPacket, one_hop_spelling};
ghost use Rattle.scion_packet.specs.Packet.{Packet, spelling};
ghost use Rattle.net_laws.specs.LawfulStart.{LawfulStart, SetsOutOn};
ghost use Rattle.net_laws.specs.OneHopStart.{LawfulOneHopStart};
ghost use Rattle.net_laws.specs.PathSegments.{PathSegment};
ghost use Rattle.net_laws.specs.Stands.{PacketAt};

use crate::carrying::{over_wire, within};
use crate::stop::Stop;
use net_laws::{End, Net};
use process_packet::{Arrival, NoMemory, Routed, Underlay, route};
use std::alloc::Global;

/// How many stops a walk has at most.
const MOST_STOPS: usize = 128;

/// A datagram that comes to a router next.
#[derive(Drop)]
struct Coming {
    router: usize,
    arrival: Arrival,
}

/// Where it comes to what a router sends by a link to an address, and from which address.
fn way_on(
    net: &Net,
    router: usize,
    arrival: &Arrival,
    link: u16,
    to: &Option<Underlay>,
) -> Option<(End, Underlay)>
    ensures { (bytes : List ℕ) → option_map (came_so bytes) result
        ≡ sent_from (net_of net.now) (came_to router arrival.entry.now) to.now link bytes (router_at (net_of net.now) router) }
{
    match net.configs.get(router) {
        Some(config) => match to {
            None => over_wire(net, router, config, link),
            Some(to) => within(net, config, arrival, to),
        },
        None => None,
    }
}

/// What a stop sends, where it comes to.
fn next_arrival(alloc: Global, net: &Net, stop: &Stop) -> Result<Option<Coming>, NoMemory>
    requires { IsStop (net_of net.now) stop.now.arrival.now stop.now }
    ensures next { IfOk result (λ o. option_map way.coming o ≡ next_stop (net_of net.now) stop.entry.now.arrival.now (came_by stop.entry.now)) }
    ensures moment { IfOk result (λ o. IfSome o (λ c. c.arrival.now ≡ stop.entry.now.arrival.now)) }
{
    match &stop.routed {
        Routed::Send { link, to, bytes } => {
            match way_on(net, stop.router, &stop.arrival, *link, to) {
                Some((end, source)) => match Vec::from_slice(alloc, bytes.as_slice()) {
                    Ok(bytes) => Ok(Some(Coming {
                        router: end.router,
                        arrival: Arrival {
                            link: end.link,
                            number: stop.arrival.number,
                            source,
                            now: stop.arrival.now,
                            bytes,
                        },
                    })),
                    Err(_) => Err(NoMemory),
                },
                None => Ok(None),
            }
        }
        _ => Ok(None),
    }
}

/// The link by which the datagram came: its number is known to have 16 bits once it is read.
fn link_of(arrival: &Arrival) -> u16
    ensures link { result ≡ arrival.entry.now.link }
    ensures fits { result < 2 ^ 16 }
{
    arrival.link
}

/// What a router does with a datagram that came to it.
fn stop_at(alloc: Global, net: &Net, coming: Coming) -> Result<Stop, NoMemory>
    requires { coming.router < length net.now.configs.items }
    ensures came { IfOk result (λ s. came_by s ≡ way.coming coming) }
    ensures stop { IfOk result (λ s. IsStop (net_of net.now) coming.arrival.now s) }
{
    let _link = link_of(&coming.arrival);
    let routed = route(alloc, &net.configs[coming.router], &coming.arrival)?;
    Ok(Stop {
        router: coming.router,
        arrival: coming.arrival,
        routed,
    })
}

/// A copy of the bytes.
fn copy_of(alloc: Global, bytes: &[u8]) -> Result<Vec<u8>, NoMemory>
    ensures items { IfOk result (λ v. v.items ≡ bytes.now) }
    ensures are { IfOk result (λ v. IsBytes v.items) }
{
    match Vec::from_slice(alloc, bytes) {
        Ok(copy) => Ok(copy),
        Err(_) => Err(NoMemory),
    }
}

/// The datagram where it comes first.
fn first(alloc: Global, router: usize, arrival: &Arrival) -> Result<Coming, NoMemory>
    ensures came { IfOk result (λ c. way.coming c ≡ came_to router arrival.entry.now) }
    ensures moment { IfOk result (λ c. c.arrival.now ≡ arrival.entry.now.now) }
    ensures are { IfOk result (λ c. IsBytes c.arrival.bytes.items) }
{
    let bytes = copy_of(alloc, arrival.bytes.as_slice())?;
    Ok(Coming {
        router,
        arrival: Arrival {
            link: arrival.link,
            number: arrival.number,
            source: arrival.source,
            now: arrival.now,
            bytes,
        },
    })
}

/// Makes the stop at which the datagram comes, adds it to the stops, and says where it comes to next. On
/// `NoMemory` the stops made before remain.
fn go_on(
    alloc: Global,
    net: &Net,
    stops: &mut Vec<Stop>,
    coming: Coming,
) -> Result<Option<Coming>, NoMemory>
    requires { coming.router < length net.now.configs.items }
    ensures came { OnOk result (map came_by stops.new.items ≡ map came_by stops.old.items ++ way.coming coming ∷ []) }
    ensures stops { OnOk result (All (IsStop (net_of net.now) coming.arrival.now) stops.old.items
        → All (IsStop (net_of net.now) coming.arrival.now) stops.new.items) }
    ensures next { IfOk result (λ o. option_map way.coming o ≡ next_stop (net_of net.now) coming.arrival.now (way.coming coming)) }
    ensures moment { IfOk result (λ o. IfSome o (λ c. c.arrival.now ≡ coming.arrival.now)) }
{
    let stop = stop_at(alloc, net, coming)?;
    let next = next_arrival(alloc, net, &stop)?;
    match stops.push(stop) {
        Ok(()) => Ok(next),
        Err(_) => Err(NoMemory),
    }
}

/// The walk of a datagram through a net: its stops one after the other, from the router to which it comes
/// first. Each is what the router does with it there; the next one is where the wire of the link leads by
/// which it leaves, or within the AS the router that has the address to which it is sent. So it ends where
/// it is delivered, answered or dropped, where no wire or router is, and after 128 stops at the latest.
/// The moment stays that of the arrival. It makes the stops in memory of their own: on `NoMemory` they are
/// dropped, and the arrival stays as it is.
pub fn walk(
    alloc: Global,
    net: &Net,
    router: usize,
    arrival: &Arrival,
) -> Result<Vec<Stop>, NoMemory>
    requires agrees { Agrees (net_of net.now) }
    requires router { router < length net.now.configs.items }
    ensures stops { IfOk result (λ stops. map came_by stops.items
        ≡ stops_from (net_of net.now) arrival.entry.now.now most_stops (Some (came_to router arrival.entry.now))) }
    ensures routed { IfOk result (λ stops. All (IsStop (net_of net.now) arrival.entry.now.now) stops.items) }
    // from a lawful start the last stop is delivery, and answers come back from each
    ensures delivered { let here = arrival.entry.now in
        (ss : List PathSegment) (p : Packet) → here.bytes.items ≡ spelling p
        → LawfulStart (net_of net.now) ss here.now (starts_at router here p)
        → IfOk result (λ stops. IsDeliveredBy (net_of net.now) here.now (starts_at router here p) (map came_by stops.items)) }
    // so is a request with router alert flags set, or the last stop's router replies to it
    ensures asked { let here = arrival.entry.now in
        (ss : List PathSegment) (p : Packet) → here.bytes.items ≡ spelling p
        → SetsOutOn (net_of net.now) ss here.now (starts_at router here p)
        → IfOk result (λ stops. IsDeliveredBy (net_of net.now) here.now (starts_at router here p) (map came_by stops.items)
        ⊎ IsRepliedTo (net_of net.now) ss here.now (starts_at router here p) (map came_by stops.items)) }
    // from a lawful start on a path of one hop it crosses a link and is delivered, in two stops
    ensures crossed { let here = arrival.entry.now in
        (p : OneHopPacket) → here.bytes.items ≡ one_hop_spelling p
        → LawfulOneHopStart (net_of net.now) here.now (one_hop_starts_at router here p)
        → IfOk result (λ stops. Crosses (net_of net.now) here.now (one_hop_starts_at router here p) (map came_by stops.items)) }
    // where a router's answer to a stop of such a walk after its first one comes first, it is walked to the source host
    ensures returned { let here = arrival.entry.now in
        (ss : List PathSegment) (start : PacketAt) (r : IsReply (net_of net.now) here.now start (came_to router here))
        → IsBytes (spelling start.packet) → LawfulStart (net_of net.now) ss here.now start
        → IfOk result (λ stops. ReturnsTo (net_of net.now) here.now (starts_at router here r.answer) start.packet.header.source (map came_by stops.items)) }
{
    let mut stops = Vec::new(alloc);
    let mut coming = first(alloc, router, arrival)?;
    for _ in 0..MOST_STOPS {
        match go_on(alloc, net, &mut stops, coming)? {
            Some(next) => coming = next,
            None => return Ok(stops),
        }
    }
    Ok(stops)
}
