//! What becomes of packets that set out lawfully, and of the answers to them: nothing here runs.

ghost use Rattle.net_walks.specs.OneHopWalk.{BeaconsCross, RepliesSetOut};
ghost use Rattle.net_walks.specs.Returns.{AnswersComeBack, AnswersStandToo, RoutersAnswerFromHome};
ghost use Rattle.net_walks.specs.Walked.{LawfulStartsAreWalked, RequestsAreWalked};

/// What takes the way back of a packet that is on a route, and is for where the route begins,
/// is on the route travelled back.
pub fn answers_stand_too()
    ensures { AnswersStandToo }
{}

/// Wherever a packet is that set out at the route's first hop, the answer of the router there comes back to
/// where it came from, if it may be answered at all.
pub fn answers_come_back()
    ensures { AnswersComeBack }
{}

/// What sets out lawfully is delivered to its destination's host or service address after at most 128
/// stops. An answer to it goes straight back from the first stop, and from each later one it is carried to
/// the source host.
pub fn lawful_starts_are_walked()
    ensures { LawfulStartsAreWalked }
{}

/// A request that asks routers on its way to answer is delivered too, or ends at one that answers it; and
/// answers to it come back as to any other packet.
pub fn requests_are_walked()
    ensures { RequestsAreWalked }
{}

/// A packet that sets out lawfully on a path of one hop leaves by the link that its first hop field names,
/// and is delivered at the other end, with both hop fields beaconed. Over a core link or one from parent to
/// child they are a path back.
pub fn beacons_cross()
    ensures { BeaconsCross }
{}

/// Whoever replies over the path back of a beacon that crossed sets out lawfully, for as long as the first
/// hop field is good; so the reply is walked to its destination.
pub fn replies_to_beacons_set_out()
    ensures { RepliesSetOut }
{}

/// The address from which a router answers is one of its AS, and an IP address that a header has room for.
pub fn routers_answer_from_home()
    ensures { RoutersAnswerFromHome }
{}
