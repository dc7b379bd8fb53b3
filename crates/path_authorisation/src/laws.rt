//! The laws; nothing here runs.

ghost use Rattle.path_authorisation.specs.Answers.{AnswersGoBack};
ghost use Rattle.path_authorisation.specs.Chained.{WalksGoAsBeaconed};
ghost use Rattle.path_authorisation.specs.Delivered.{DeliveriesAreAuthorised};
ghost use Rattle.path_authorisation.specs.Example.{PremiseIsMet};
ghost use Rattle.path_authorisation.specs.Links.{LinksAreFew};
ghost use Rattle.path_authorisation.specs.OneHops.{OneHopsCrossOneLink};
ghost use Rattle.path_authorisation.specs.Stretches.{SegmentsAreBeaconed};
ghost use Rattle.path_authorisation.specs.Ways.{WalksAreValleyFree};

/// Whatever the net and whoever made it, a packet crosses at most 63 links.
pub fn links_are_few()
    ensures { LinksAreFew }
{}

/// In a net that agrees a packet goes up to parents, then over the core, then down to children, whoever made it: never
/// up again once it went over the core or down, and never over the core once it went down. At each AS the link by which
/// it comes and the one by which it leaves are a lawful pair, also where two routers have them.
pub fn walks_are_valley_free()
    ensures { WalksAreValleyFree }
{}

/// If no MAC is forged, each hop field at which a packet comes over a link on its segment was chained, in beaconing, to
/// the one by which it left the AS before; and if no identifiers collide, both stand one after the other in one segment
/// that was beaconed.
pub fn walks_go_as_beaconed()
    ensures { WalksGoAsBeaconed }
{}

/// If no MAC is forged and no identifiers collide, all hop fields at which a packet comes on one segment of its path,
/// from the one by which it left an AS on, are entries of one beaconed segment, in its order.
pub fn segments_are_beaconed()
    ensures { SegmentsAreBeaconed }
{}

/// If no MAC is forged, a packet from outside that is delivered came by a link for which this AS made its last hop
/// field.
pub fn deliveries_are_authorised()
    ensures { DeliveriesAreAuthorised }
{}

/// A packet on a path of one hop crosses one link: from inside it leaves by one with its AS's MAC for that link, and
/// what comes by a link goes to a host or service of the AS, if it is sent at all.
pub fn one_hops_cross_one_link()
    ensures { OneHopsCrossOneLink }
{}

/// What a datagram makes a router answer goes back by the link by which it came, or within the AS to the underlay
/// address from which it came. An SCMP message goes to the source that it claims and tells the problem with it, BFD to
/// the neighbour that the configuration names.
pub fn answers_go_back()
    ensures { AnswersGoBack }
{}

/// The premise can be met: in a net of five routers a packet goes over two beaconed segments, sent on at each of four
/// stops, with no MAC forged and no identifiers that collide; and with one byte of a MAC changed it isn't sent.
pub fn premise_is_met()
    ensures { PremiseIsMet }
{}
