//! The laws of reading and spelling: nothing here runs.

ghost use Rattle.scion_packet.specs.Laws.{HeaderLaws, KindsAreApart, OffsetLaws, OneHopLaws, OneHopWrittenOver, PacketLaws, PathLaws, PathWrittenOver};
ghost use Rattle.scion_packet.specs.Reversed.{ReversedLaws};

/// A datagram that passes the header's tests begins with the header that is read from it; one that
/// begins with any header passes them, and begins with no other.
pub fn header_laws()
    ensures { HeaderLaws }
{}

/// Bytes that pass the path's tests are those of the path that is read from them; those of any path
/// pass them, and are those of no other.
pub fn path_laws()
    ensures { PathLaws }
{}

/// A datagram that passes all tests spells the packet that is read from it, byte for byte; one that
/// spells any packet passes them, and spells no other.
pub fn packet_laws()
    ensures { PacketLaws }
{}

/// The same of datagrams and packets on a path of one hop.
pub fn one_hop_laws()
    ensures { OneHopLaws }
{}

/// No datagram spells a packet on a SCION path and one on a path of one hop.
pub fn kinds_are_apart()
    ensures { KindsAreApart }
{}

/// Each info field and each hop field of a path that passes its tests is at one offset of its
/// bytes, the current ones at those that the cursor names.
pub fn offset_laws()
    ensures { OffsetLaws }
{}

/// A datagram whose path is written over where it lies spells its packet with the new path, and the
/// rest of it as it was.
pub fn path_written_over()
    ensures { PathWrittenOver }
{}

/// The same of a datagram on a path of one hop.
pub fn one_hop_written_over()
    ensures { OneHopWrittenOver }
{}

/// The way back over a path meets the same hops in the other order: where a hop follows another, the
/// other follows it on the way back; and the hop with which the path begins is the last one there.
pub fn reversed_laws()
    ensures { ReversedLaws }
{}
