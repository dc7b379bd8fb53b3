//! The laws of ports, said of packets as their standards lay them out: nothing here runs.

ghost use Rattle.host_ports.specs.Laws.{ErrorsGiveTheQuotedPort, NothingElseGivesAPort, RepliesGiveTheirIdentifier, UdpGivesItsDestination};

/// A packet with a UDP header, behind whatever extensions, is for the header's destination port (RFC 768,
/// "Format").
pub fn udp_gives_its_destination()
    ensures { UdpGivesItsDestination }
{}

/// A packet with an SCMP echo or traceroute reply is for the port that is its identifier (SCMP
/// specification, "Echo Reply", "Traceroute Reply").
pub fn replies_give_their_identifier()
    ensures { RepliesGiveTheirIdentifier }
{}

/// An SCMP error message that quotes enough of a packet is for the port from which that packet was sent:
/// the source port of its UDP header, or the identifier of its echo or traceroute request, whatever its
/// path.
pub fn errors_give_the_quoted_port()
    ensures { ErrorsGiveTheQuotedPort }
{}

/// No other packet gives a port: none with a request, another type of message or another protocol, with a
/// UDP header or a reply that isn't wholly there, or with a quote that can't be read or carries anything
/// else, an error message included.
pub fn nothing_else_gives_a_port()
    ensures { NothingElseGivesAPort }
{}
