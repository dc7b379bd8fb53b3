//! Why a packet is dropped.

ghost use Rattle.std.specs.Prelude.{◌≡◌, ◌<◌, ◌≤◌};
ghost use Rattle.process_packet.specs.Cause.{causes, number_of};

/// How many causes there are.
pub const CAUSES: usize = 21;

/// Why a datagram, or the answer to one, is dropped.
#[derive(Clone, Copy, PartialEq, Eq)]
pub enum Cause {
    /// The datagram is shorter than its header.
    Short,
    /// The version is not 0.
    Version,
    /// The path type is not one that is carried.
    PathType,
    /// The header length does not cover the addresses, or does not end where the path does.
    Header,
    /// The path's lengths, its cursor or its hop count are refused; or a path of one hop is travelled
    /// against its construction.
    Path,
    /// A segment is marked as peering.
    Peering,
    /// The datagram came from another underlay address than it may.
    UnderlaySource,
    /// The packet would leave the AS at its path's last hop, with no next hop to move to.
    PathEnd,
    /// No SCMP error answers this datagram: it is an SCMP error itself, or it says too little.
    NoAnswer,
    /// There is no way back to the datagram's source.
    NoWayBack,
    /// The datagram is longer than the longest that is carried.
    TooLong,
    /// The pipe of the flow's processor was full.
    ProcessorFull,
    /// The pipe of the leaving link was full.
    LinkFull,
    /// The pipe of the slow path, which makes answers, was full.
    AnswerFull,
    /// Memory ran out.
    NoMemory,
    /// The leaving link was closed.
    Closed,
    /// The leaving link's device failed to send.
    SendFailed,
    /// The arriving link had no free buffer.
    NoBuffer,
    /// A one-hop path between other ASes than the two at its link's ends.
    OneHopEnds,
    /// The first hop field of a one-hop path may not be used.
    OneHopField,
    /// A one-hop packet is for a host or a service that is not there.
    OneHopHost,
}

impl Cause {
    /// Its number, from 1 to `CAUSES`, in the order above.
    pub fn number(self) -> u8
        ensures number { result ≡ number_of self }
        ensures range { (1 ≤ result) × (result ≤ causes) }
    {
        match self {
            Cause::Short => 1,
            Cause::Version => 2,
            Cause::PathType => 3,
            Cause::Header => 4,
            Cause::Path => 5,
            Cause::Peering => 6,
            Cause::UnderlaySource => 7,
            Cause::PathEnd => 8,
            Cause::NoAnswer => 9,
            Cause::NoWayBack => 10,
            Cause::TooLong => 11,
            Cause::ProcessorFull => 12,
            Cause::LinkFull => 13,
            Cause::AnswerFull => 14,
            Cause::NoMemory => 15,
            Cause::Closed => 16,
            Cause::SendFailed => 17,
            Cause::NoBuffer => 18,
            Cause::OneHopEnds => 19,
            Cause::OneHopField => 20,
            Cause::OneHopHost => 21,
        }
    }
}
