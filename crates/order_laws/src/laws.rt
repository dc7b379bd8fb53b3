//! The laws of order, each as the contract of a function that does nothing. Its type parameters stand for what the
//! pipeline leaves open: datagrams as they arrive, parcels as they leave, problems that are answered, reasons of drops, and
//! keys of flows.

ghost use Rattle.order_laws.specs.Settled.{Settles};
ghost use Rattle.order_laws.specs.Counted.{CountsOnce};
ghost use Rattle.order_laws.specs.Example.{Lawful, Homes, Ends};

/// Of workers that keep their laws over pipes that hold nothing any more: each forwarder handed on, of each link and flow, what
/// the sequential router sends, in order, less what was dropped.
pub fn settles_in_order<D, P, Q, R, K>()
    ensures law { Settles (record { Datagram = D; Parcel = P; Problem = Q; RuleCause = R; Key = K }) }
{}

/// Of such workers as many packets were handed to sinks and dropped, in sum, as receivers numbered.
pub fn counts_once<D, P, Q, R, K>()
    ensures law { CountsOnce (record { Datagram = D; Parcel = P; Problem = Q; RuleCause = R; Key = K }) }
{}

/// Small cases: rules that are lawful, where items go by them, and what workers tell that have ended.
pub fn examples()
    ensures lawful { Lawful }
    ensures homes { Homes }
    ensures ends { Ends }
{}
