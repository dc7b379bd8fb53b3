//! The laws of a running pipeline that has ended, as contracts of functions that do nothing.

ghost use Rattle.worker_laws.specs.Workers.{Composes};
ghost use Rattle.worker_laws.specs.Ended.{Ends};
ghost use Rattle.worker_laws.specs.Places.{StandsEach};
ghost use Rattle.worker_laws.specs.Causes.{CountsEachCause};
ghost use Rattle.worker_laws.specs.Sums.{AddsUp};
ghost use Rattle.worker_laws.specs.Example.{IsExample};
ghost use Rattle.atomic_table.specs.Seated.{TableId};
ghost use Rattle.worker_laws.specs.Reasons.{GivesReasons, MergesBands};

/// Workers that keep their laws, each over its own ends, and pipes of which all that was accepted was taken: what is read off
/// them are the views of a pipeline that has ended.
pub fn composes<D, P, Q, R, K>()
    ensures law { Composes (record { Datagram = D; Parcel = P; Problem = Q; RuleCause = R; Key = K }) }
{}

/// Of workers that keep their laws over pipes that hold nothing any more: the order of each link, flow and leaving link; each
/// packet at one place; what leaves is a packet's or an answer's, by the rules; of a link's band that was closed the mark was taken, and
/// of another one nothing is swept.
pub fn ends<D, P, Q, R, K>()
    ensures law { Ends (record { Datagram = D; Parcel = P; Problem = Q; RuleCause = R; Key = K }) }
{}

/// Of such workers: what a receiver or a processor counted the decision drops for that reason, what the slow path counted has
/// its reply withheld for it; what a full pipe refused was made for that pipe, a packet, an answer or a request by the rules; what a
/// receiver dropped for a full pipe, or for want of a buffer, has no fault.
pub fn gives_reasons<D, P, Q, R, K>()
    ensures law { GivesReasons (record { Datagram = D; Parcel = P; Problem = Q; RuleCause = R; Key = K }) }
{}

/// Of such workers: a sink was handed what its forwarder took of both pipes of the link before their marks, of each in its
/// order, and of a link with one band what it took of the one pipe.
pub fn merges_bands<D, P, Q, R, K>()
    ensures law { MergesBands (record { Datagram = D; Parcel = P; Problem = Q; RuleCause = R; Key = K }) }
{}

/// Of such workers: each packet that a receiver numbered, or the answer to it, is at one place; no two pipes of a kind had
/// it, and none had it twice.
pub fn stands_once<D, P, Q, R, K>()
    ensures law { StandsEach (record { Datagram = D; Parcel = P; Problem = Q; RuleCause = R; Key = K }) }
{}

/// Of such workers: what they counted, cause by cause, is what was refused, swept, lacked, dropped by the rules, sent and
/// answered; what was received is what was sent, answered or dropped.
pub fn counts_each_cause<D, P, Q, R, K>()
    ensures law { CountsEachCause (record { Datagram = D; Parcel = P; Problem = Q; RuleCause = R; Key = K }) }
{}

/// What such workers counted, one share after another, is in sum all that the workers of the views counted.
pub fn adds_up<D, P, Q, R, K>()
    ensures law { AddsUp (record { Datagram = D; Parcel = P; Problem = Q; RuleCause = R; Key = K }) }
{}

/// A small run with each way in which a packet may end: its workers and pipes meet what these laws ask, and its packets, places
/// and counts are as they should be.
pub fn example()
    ensures example { (id : TableId) → IsExample id }
{}
