//! The laws of the pipeline, each as the contract of a function that does nothing. Its type parameters stand for what the
//! pipeline leaves open: datagrams as they arrive, parcels as they leave, problems that are answered, reasons of drops, and
//! keys of flows.

ghost use Rattle.replay_laws.specs.Run.{RunsStepwise};
ghost use Rattle.replay_laws.specs.Start.{Begins, ReachesOn};
ghost use Rattle.replay_laws.specs.Order.{KeepsOrder};
ghost use Rattle.replay_laws.specs.ByRules.{KeepsRules};
ghost use Rattle.replay_laws.specs.Place.{KeepsPlace};
ghost use Rattle.replay_laws.specs.Full.{KeepsFull};
ghost use Rattle.replay_laws.specs.Once.{KeepsOnce};
ghost use Rattle.replay_laws.specs.Close.{KeepsClose};
ghost use Rattle.replay_laws.specs.Sent.{KeepsSent};
ghost use Rattle.replay_laws.specs.Totals.{KeepsTotals};
ghost use Rattle.replay_laws.specs.Example.{FullQueue, ClosedLink, TwoFlows, Answers, TwoBands, Lacks, MarksOnce};

/// The first world is a start.
pub fn begins<D, P, Q, R, K>()
    ensures law { Begins (record { Datagram = D; Parcel = P; Problem = Q; RuleCause = R; Key = K }) }
{}

/// Some steps more lead on from the same start.
pub fn reaches_on<D, P, Q, R, K>()
    ensures law { ReachesOn (record { Datagram = D; Parcel = P; Problem = Q; RuleCause = R; Key = K }) }
{}

/// After any list of steps the packets of each link and flow leave in the order of their arrival.
pub fn keeps_order<D, P, Q, R, K>()
    ensures law { KeepsOrder (record { Datagram = D; Parcel = P; Problem = Q; RuleCause = R; Key = K }) }
{}

/// After any list of steps all that is under way or ended comes from the arrivals by the rules, and is in its own pipe.
pub fn keeps_rules<D, P, Q, R, K>()
    ensures law { KeepsRules (record { Datagram = D; Parcel = P; Problem = Q; RuleCause = R; Key = K }) }
{}

/// After any list of steps each received packet is at exactly one place.
pub fn keeps_place<D, P, Q, R, K>()
    ensures law { KeepsPlace (record { Datagram = D; Parcel = P; Problem = Q; RuleCause = R; Key = K }) }
{}

/// After any list of steps each drop at a full pipe met its own pipe full.
pub fn keeps_full<D, P, Q, R, K>()
    ensures law { KeepsFull (record { Datagram = D; Parcel = P; Problem = Q; RuleCause = R; Key = K }) }
{}

/// After any list of steps nothing was pushed twice.
pub fn keeps_once<D, P, Q, R, K>()
    ensures law { KeepsOnce (record { Datagram = D; Parcel = P; Problem = Q; RuleCause = R; Key = K }) }
{}

/// After any list of steps as many packets were received as are sent, answered, waiting and dropped, in sum.
pub fn keeps_totals<D, P, Q, R, K>()
    ensures law { KeepsTotals (record { Datagram = D; Parcel = P; Problem = Q; RuleCause = R; Key = K }) }
{}

/// After any list of steps nothing pushed after a closing mark was taken but by a sweep, and just what was swept is counted
/// as closed.
pub fn keeps_close<D, P, Q, R, K>()
    ensures law { KeepsClose (record { Datagram = D; Parcel = P; Problem = Q; RuleCause = R; Key = K }) }
{}

/// After any list of steps each forwarder has sent what it took for sending, in order, less what is in its hand and what its
/// sink refused.
pub fn keeps_sent<D, P, Q, R, K>()
    ensures law { KeepsSent (record { Datagram = D; Parcel = P; Problem = Q; RuleCause = R; Key = K }) }
{}

/// What a list of steps does, and which of them aren't possible, doesn't depend on what comes later.
pub fn runs_stepwise<D, P, Q, R, K>()
    ensures law { RunsStepwise (record { Datagram = D; Parcel = P; Problem = Q; RuleCause = R; Key = K }) }
{}

/// Small runs: a full queue, a closed link, two processors, an answer, two bands, what is lacking, end marks.
pub fn examples()
    ensures full_queue { FullQueue }
    ensures closed_link { ClosedLink }
    ensures two_flows { TwoFlows }
    ensures answers { Answers }
    ensures two_bands { TwoBands }
    ensures lacks { Lacks }
    ensures marks_once { MarksOnce }
{}
