//! The laws; nothing here runs.

ghost use Rattle.net_laws.specs.Configured.{LinksAreNumbered};
ghost use Rattle.net_laws.specs.Examples.{ExamplesAreLawful};
ghost use Rattle.net_laws.specs.LawfulStart.{HopsMakeRoutes};
ghost use Rattle.net_laws.specs.Route.{RoutesTurn};
ghost use Rattle.net_laws.specs.Start.{PathsAreWalked};
ghost use Rattle.net_laws.specs.Stop.{CarriedToOne, OneStop};
ghost use Rattle.net_laws.specs.Stretch.{BeaconedHopsHold, StretchesHold};
ghost use Rattle.net_laws.specs.Walk.{RoutesAreWalked};

/// A packet that is on a route is delivered at the route's last hop. At any other one it is sent
/// on, and is on the route where it comes to.
pub fn one_stop()
    ensures { OneStop }
{}

/// From wherever it is on a route, a packet is delivered after at most 128 stops.
pub fn routes_are_walked()
    ensures { RoutesAreWalked }
{}

/// A route travelled back is a route.
pub fn routes_turn()
    ensures { RoutesTurn }
{}

/// A packet that sets out on a route is delivered where the route ends, after at most 128 stops, with the
/// header and the payload with which it set out.
pub fn paths_are_walked()
    ensures { PathsAreWalked }
{}

/// On a stretch of a beaconed segment, travelled along or against, each hop has its MAC, and the
/// identifier that leaves one hop comes to the next.
pub fn stretches_hold()
    ensures { StretchesHold }
{}

/// On a route over stretches of beaconed segments each hop has its MAC, and the identifiers fit from hop
/// to hop.
pub fn beaconed_hops_hold()
    ensures { BeaconedHopsHold }
{}

/// In a net that agrees, a packet that is sent comes to one router only, the same way: a walk is one.
pub fn carried_to_one()
    ensures { CarriedToOne }
{}

/// A path over beaconed segments, each AS wired to the next and none met twice, is a route.
pub fn hops_make_routes()
    ensures { HopsMakeRoutes }
{}

/// The definitions hold of the examples: a packet that sets out over three ASes, a path up and down, a
/// packet that changes its segment in an AS of two routers, each of which lists the other's links, a
/// beacon over a link whose ends name each other's AS, and two routers of one AS that know the same ports of
/// applications on end hosts, or other ones.
pub fn examples_are_lawful()
    ensures { ExamplesAreLawful }
{}

/// Each link of a configuration has a number from 1 on.
pub fn links_are_numbered()
    ensures { LinksAreNumbered }
{}
