//! A packet as the rows of the decision see it: what is looked at doesn't grow with the path.

ghost use Rattle.std.specs.Prelude.{◌<◌, ◌≤◌};

use crate::path_hop::PathHop;

/// What the rows look at of a packet: how it came, its current hop, and what has changed so far. The datagram
/// itself is not changed before the packet is sent.
// No call takes it by reference once the rows are inlined, so that its fields stay in registers: the rows that
// would else be left as calls are marked for it.
#[derive(Drop)]
pub(crate) struct PacketView {
    /// The link by which it came; 0 is the internal network.
    pub link: u16,
    /// When it came, in seconds of Unix time. Not `now`, which has a
    /// meaning of its own in contracts.
    pub moment: u64,
    /// Where the path begins in the datagram, in bytes: at 60 at the most.
    pub path_begin: usize,
    /// How many bytes come after the header.
    pub payload: usize,
    /// How many segments the path has.
    pub segments: usize,
    /// The current hop.
    pub current: PathHop,
    /// Whether the packet has changed its segment here.
    pub switched: bool,
    /// The segment by which it came.
    pub entered: usize,
    /// That segment's SegID, where it was turned back.
    pub turned: Option<u16>,
    pub ghost begins_early: { path_begin ≤ 60 },
    pub ghost few: { segments ≤ 3 },
    pub ghost entered_fits: { entered < 3 },
}

impl PacketView {
    ghost use Rattle.std.specs.Prelude.{◌≡◌, ◌+◌, ◌==◌, ◌&&◌, not, nat_lt};
    ghost use Rattle.process_packet.specs.PacketView.{Shows};
    ghost use Rattle.process_packet.specs.PacketState.{PacketState, egress, egress_alert, hop_pointer, info_pointer, ingress, ingress_alert, is_external, is_first_of_path, is_last_of_path, is_last_of_segment, is_followed};

    /// Whether it came from another AS, not by the internal network.
    pub(crate) fn is_external(&self) -> bool
        ensures { (s : PacketState) → Shows self.now s → result ≡ is_external s }
    {
        self.link != 0
    }

    /// The interface by which the packet comes in, in the direction of travel.
    pub(crate) fn ingress(&self) -> u16
        ensures { (s : PacketState) → Shows self.now s → result ≡ ingress s }
    {
        self.current.ingress()
    }

    /// The interface by which it goes out.
    pub(crate) fn egress(&self) -> u16
        ensures { (s : PacketState) → Shows self.now s → result ≡ egress s }
    {
        self.current.egress()
    }

    /// Whether the router at the ingress interface is asked to answer: in the direction of construction by the
    /// hop field's ingress alert flag, else by its egress alert flag.
    pub(crate) fn ingress_alert(&self) -> bool
        ensures { (s : PacketState) → Shows self.now s → result ≡ ingress_alert s }
    {
        if self.current.info.along {
            self.current.hop.ingress_alert
        } else {
            self.current.hop.egress_alert
        }
    }

    /// Whether the router at the egress interface is asked to answer, by the other of both flags.
    pub(crate) fn egress_alert(&self) -> bool
        ensures { (s : PacketState) → Shows self.now s → result ≡ egress_alert s }
    {
        if self.current.info.along {
            self.current.hop.egress_alert
        } else {
            self.current.hop.ingress_alert
        }
    }

    /// Whether its current hop is the first of its path.
    pub(crate) fn is_first_of_path(&self) -> bool
        ensures { (s : PacketState) → Shows self.now s → result ≡ is_first_of_path s.path.place }
    {
        self.current.segment == 0 && self.current.position == 0
    }

    /// Whether its current hop is the last of its segment.
    pub(crate) fn is_last_of_segment(&self) -> bool
        ensures value { result ≡ (self.now.current.position + 1 == self.now.current.hops) }
        ensures shows { (s : PacketState) → Shows self.now s → result ≡ is_last_of_segment s }
    {
        self.current.position + 1 == self.current.hops
    }

    /// Whether another segment follows the current one.
    pub(crate) fn is_followed(&self) -> bool
        ensures value { result ≡ nat_lt (self.now.current.segment + 1) self.now.segments }
        ensures shows { (s : PacketState) → Shows self.now s → result ≡ is_followed s }
    {
        self.current.segment + 1 < self.segments
    }

    /// Whether its current hop is the last of its path.
    pub(crate) fn is_last_of_path(&self) -> bool
        ensures value { result ≡ (self.now.current.position + 1 == self.now.current.hops && not (nat_lt (self.now.current.segment + 1) self.now.segments)) }
        ensures shows { (s : PacketState) → Shows self.now s → result ≡ is_last_of_path s }
    {
        self.is_last_of_segment() && !self.is_followed()
    }

    /// Where the current hop field is in the datagram, in bytes.
    pub(crate) fn hop_pointer(&self) -> u16
        ensures { (s : PacketState) → Shows self.now s → result ≡ hop_pointer s }
    {
        (self.path_begin + 4 + 8 * self.segments + 12 * self.current.number) as u16
    }

    /// Where the current info field is in the datagram, in bytes.
    pub(crate) fn info_pointer(&self) -> u16
        ensures { (s : PacketState) → Shows self.now s → result ≡ info_pointer s }
    {
        (self.path_begin + 4 + 8 * self.current.segment) as u16
    }
}
