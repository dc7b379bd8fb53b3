//! The ends of a decision that send nothing.

ghost use Rattle.std.specs.Prelude.{◌≡◌};
ghost use Rattle.path_fields.specs.Fault as path;
ghost use Rattle.process_packet.specs.Rows.{cause_of};
ghost use Rattle.scion_header.specs.Fault as header;

use crate::cause::Cause;
use crate::decision::{Decision, Problem};
use crate::link_control::BFD;
use crate::scmp::{PARAMETER_PROBLEM, TRACEROUTE_REPLY};
use path_fields::PathFault;
use scion_header::HeaderFault;

/// How a row ends the decision if the packet isn't sent.
#[derive(Clone, Copy)]
pub(crate) enum Refusal {
    /// The packet is answered.
    Answer(Problem),
    /// The packet is dropped.
    Drop(Cause),
}

impl Refusal {
    ghost use Rattle.std.specs.Prelude.{◌≡◌};
    ghost use Rattle.process_packet.specs.Decide.{decision_of};
    ghost use Rattle.process_packet.specs.OneHopTable.{one_hop_decision_of};
    ghost use Rattle.process_packet.specs.OneHopView.{one_hop_refused};
    ghost use Rattle.process_packet.specs.PacketView.{refused};

    /// The decision that it is, on a SCION path or on a path of one hop.
    pub(crate) fn decision(self) -> Decision
        ensures scion { result ≡ decision_of (refused self) }
        ensures one_hop { result ≡ one_hop_decision_of (one_hop_refused self) }
    {
        match self {
            Refusal::Answer(problem) => Decision::Answer(problem),
            Refusal::Drop(cause) => Decision::Drop(cause),
        }
    }
}

/// The cause for which a datagram with this fault of its header is dropped.
pub fn header_cause(fault: HeaderFault) -> Cause
    ensures { result ≡ cause_of (header.fault_of fault) }
{
    match fault {
        HeaderFault::Short => Cause::Short,
        HeaderFault::Version => Cause::Version,
        HeaderFault::PathType => Cause::PathType,
        HeaderFault::Header => Cause::Header,
    }
}

/// The cause for which a datagram with this fault of its path is dropped.
pub(crate) fn path_cause(fault: PathFault) -> Cause
    ensures { result ≡ cause_of (path.fault_of fault) }
{
    match fault {
        PathFault::Header => Cause::Header,
        PathFault::Path => Cause::Path,
        PathFault::Peering => Cause::Peering,
    }
}

/// A problem of SCMP type 4: a field of the packet is wrong. The pointer is where it begins, in bytes from the
/// datagram's start (SCMP specification, "Parameter Problem").
pub(crate) fn parameter_problem(code: u8, pointer: u16) -> Refusal
    ensures { result ≡ Refusal.Answer (record { kind = 4; code = code; pointer = pointer }) }
{
    Refusal::Answer(Problem {
        kind: PARAMETER_PROBLEM,
        code,
        pointer,
    })
}

/// The reply to a traceroute request, SCMP type 131, by the router that has the interface (SCMP specification,
/// "Traceroute Reply").
pub(crate) fn traceroute_reply(interface: u16) -> Refusal
    ensures { result ≡ Refusal.Answer (record { kind = 131; code = 0; pointer = interface }) }
{
    Refusal::Answer(Problem {
        kind: TRACEROUTE_REPLY,
        code: 0,
        pointer: interface,
    })
}

/// The answer to a BFD control packet that came by the link.
pub(crate) fn control_answer(link: u16) -> Refusal
    ensures { result ≡ Refusal.Answer (record { kind = 203; code = 0; pointer = link }) }
{
    Refusal::Answer(Problem {
        kind: BFD,
        code: 0,
        pointer: link,
    })
}
