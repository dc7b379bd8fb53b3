//! What the decision table says as a whole: nothing here runs.

ghost use Rattle.process_packet.specs.Answerable.{AnswersAreSound};
ghost use Rattle.process_packet.specs.Chaining.{NoHopIsSplicedIn};
ghost use Rattle.process_packet.specs.Hosts.{DeliveredToItsHost, HostsAreReached};
ghost use Rattle.process_packet.specs.Laws.{NextPlaceIsNext, NothingElseChanges, OnlyAuthorised, OnlyLawfulWays};
ghost use Rattle.process_packet.specs.OneHopAnswers.{ControlIsAnswered};
ghost use Rattle.process_packet.specs.OneHopLaws.{DecidedByKind, OneHopsDifferInPlace, OneHopsEnter, OneHopsKeepTheRest, OneHopsLeave};
ghost use Rattle.process_packet.specs.OneHopRefusals.{OneHopsAreRefusedSo};
ghost use Rattle.process_packet.specs.Pointers.{PointersAreRight};
ghost use Rattle.process_packet.specs.PortLaws.{HostsListenSo};
ghost use Rattle.process_packet.specs.Problems.{ProblemsAreLawful};
ghost use Rattle.process_packet.specs.Refusals.{RefusedAreTold};
ghost use Rattle.process_packet.specs.Shown.{AllAuthorisedAreSent};
ghost use Rattle.process_packet.specs.StateWords.{WordsSayFields};
ghost use Rattle.process_packet.specs.ValleyFree.{WaysAreValleyFree};
ghost use Rattle.process_packet.specs.Ways.{SentByThreeWays};
ghost use Rattle.process_packet.specs.WhatLeaves.{WhatLeavesIsLawful};

use host_ports::udp_gives_its_destination;

/// A packet is sent only if it has no fault, no more bytes than any link carries and the payload length that
/// it tells; the hop field at its cursor was within its time, named the link by which the packet came from
/// outside, and carried the MAC that the AS's key gives for it; and it came from the router at the link's
/// other end, or within the AS from the router of the entry interface. From outside it claims no source in
/// this AS; one that begins its path inside has its source here. From outside it is for this AS exactly at
/// its path's last hop, and from inside never.
pub fn only_authorised()
    ensures { OnlyAuthorised }
{}

/// A packet that is sent is for this AS and delivered at its path's last hop; or it leaves by the very
/// interface that its hop field names, over a lawful pair of links, on its segment or on the next one,
/// whose first hop field was within its time and carried its MAC too.
pub fn only_lawful_ways()
    ensures { OnlyLawfulWays }
{}

/// What leaves differs from what arrived in the cursor and in the identifiers of at most two segments,
/// and in nothing else.
pub fn nothing_else_changes()
    ensures { NothingElseChanges }
{}

/// A packet that leaves by a link of this router is at the next hop of its path, as `path_fields::advance`
/// moves a path; where the path has no next hop it doesn't leave.
pub fn next_place_is_next()
    ensures { NextPlaceIsNext }
{}

/// Only a datagram without a fault of its header and its path is answered: one on a SCION path by SCMP; and one on a path
/// of one hop by BFD (kind 203), if it came by a link to a neighbour over which the configuration has BFD answered, is no
/// answer itself, and passes the tests on reception.
pub fn answers_are_sound()
    ensures { AnswersAreSound }
{}

/// What a sender is told is that its destination can't be reached (type 1), that a field is wrong (type 4), or
/// a traceroute reply (type 131). The reply is for a request that is authorised, and it is of the interface
/// by which the packet came, or of an own one by which it would leave over a lawful pair of links, where the
/// hop field sets that interface's router alert flag.
pub fn problems_are_lawful()
    ensures { ProblemsAreLawful }
{}

/// A packet that shows all that it must show is sent, unless it asks a router here to answer: to its host
/// where it is for this AS, else by its egress interface, or to the router of the AS that has this
/// interface.
pub fn authorised_is_sent()
    ensures { AllAuthorisedAreSent }
{}

/// A packet is sent by one of three ways: to its own host, by a link of this router with the cursor at the
/// next hop of its path, or to the router of the AS that has its egress interface, at the hop by which it
/// leaves the AS: what may have changed then is SegID, turned back where it arrived, and the cursor, moved
/// on to the next segment.
pub fn sent_by_three_ways()
    ensures { SentByThreeWays }
{}

/// What comes from outside, is for this AS and is sent goes to its own destination: on link 0, to the host's
/// address and the port where the host listens for it, or to the address of the service.
pub fn delivers_to_its_host()
    ensures { DeliveredToItsHost }
{}

/// A packet that is delivered goes to its destination's host, at the port where the host listens for it, or to the
/// address of the service.
pub fn hosts_are_reached()
    ensures { HostsAreReached }
{}

/// What leaves is a lawful packet: the next reader finds no fault in the bytes, and reads just the packet that
/// the decision sends. They are as many as came, and at most five differ: the cursor's, and the two of the
/// identifiers of the segment by which the packet came and of the one by which it leaves.
pub fn what_leaves_is_lawful()
    ensures { WhatLeavesIsLawful }
{}

/// Over two stops no hop is spliced in. Where one router sends a packet by a link and another one sends on what
/// came to it, the hop field accepted next is the next one of the segment, and carries the MAC for the
/// identifier chained from the hop field that was accepted before, and for the same timestamp; against the
/// direction of construction it is the other way round. Within the AS it is the very same hop. It says nothing
/// where the hop field by which the packet leaves is its segment's last: there the next AS's hop field begins
/// another segment, whose MAC nothing chains to this one.
pub fn no_hop_is_spliced_in()
    ensures { NoHopIsSplicedIn }
{}

/// The pointer of a parameter problem lies inside the header, at the field that its code names: the hop field
/// or the info field that was refused, the domain of the source or of the destination, the kinds of the hosts,
/// or the datagram's beginning for a wrong size.
pub fn pointers_are_right()
    ensures { PointersAreRight }
{}

/// The words in which the rows and these laws speak of a packet say its fields: the expiry's moment to the
/// half second, all six bytes of the MAC, the interfaces and their alert flags by the direction of
/// construction, the path's last hop, the local AS, and the pointers' offsets.
pub fn words_say_fields()
    ensures { WordsSayFields }
{}

/// What comes over a link and leaves to another AS keeps to a way without a valley at this stop: after a
/// parent it goes to a child, after the core never to a parent, and on one segment up stays up and core
/// stays core. It leaves over an own link, or to the router that has the link.
pub fn ways_are_valley_free()
    ensures { WaysAreValleyFree }
{}

/// What a sender is told of each refused packet, with its pointer, or for which cause it is dropped: reason
/// by reason, said of the packet's fields, in the order in which the reasons count.
pub fn refused_are_told()
    ensures { RefusedAreTold }
{}

/// A datagram is decided by the table of SCION paths unless its path type is that of a path of one hop; and such a
/// one too, where one-hop paths are not taken from its link: so a router whose links name no neighbour decides as if
/// there were no others. Where they are taken, it is decided by the table of one-hop paths.
pub fn decided_by_kind()
    ensures { DecidedByKind }
{}

/// From inside a packet on a path of one hop is sent exactly if it has no fault, is from this AS for the AS at the
/// other end of the link that its first hop field names, and this hop field is of that link, neither expired nor of
/// more than 300 seconds ahead, and carries the MAC of the AS's key. It leaves by that link, with the identifier
/// chained.
pub fn one_hops_leave()
    ensures { OneHopsLeave }
{}

/// From outside it is sent exactly if it has no fault, comes from the router at the link's other end, is from the AS
/// there for this one, no message of BFD, neither expired nor of more than 300 seconds ahead, and its host or service
/// is reached. It goes there, with the second hop field made: from the link by which it came, the last of its
/// segment, with the MAC of this AS's key.
pub fn one_hops_enter()
    ensures { OneHopsEnter }
{}

/// A packet on a path of one hop that is sent differs from what came in the two bytes of the identifier, if it came
/// from inside, and else in the twelve of the second hop field.
pub fn one_hops_differ_in_place()
    ensures { OneHopsDifferInPlace }
{}

/// It keeps its header and its payload.
pub fn one_hops_keep_the_rest()
    ensures { OneHopsKeepTheRest }
{}

/// For which cause each refused packet on a path of one hop is dropped: reason by reason, said of the packet's fields,
/// in the order in which the reasons count.
pub fn one_hops_are_refused_so()
    ensures { OneHopsAreRefusedSo }
{}

/// A BFD control packet that came from the router at the other end of its link is answered, if the configuration has that,
/// the packet is no answer itself and it passes the tests on reception; and no other packet on a path of one hop is
/// answered, nor any other datagram by BFD.
pub fn control_is_answered()
    ensures { ControlIsAnswered }
{}

/// The port at which a packet for an IPv4 or IPv6 host of this AS is delivered: the one of the application for which it is
/// (`host_ports::destination_port`), if the configuration has a range of such ports and this one lies in it, both ends
/// included; else that of the dispatcher. So UDP for a port in the range goes to that port (RFC 768), and where the
/// configuration has no range, every packet to the dispatcher.
pub fn hosts_listen_so()
    ensures { HostsListenSo }
{
    udp_gives_its_destination();
}
