//! What is promised of control packets and of their answers as a whole: nothing here runs.

ghost use Rattle.bfd_control.specs.Laws.{AnswersAreOrderly, AnswersAreTaken, AnswersBringUp, AnswersTellStates, ControlPacketLaws, ReceptionTests, SessionsGoSo};

/// Bytes of a control packet are those of the packet that is read from them, and of no other.
pub fn control_packet_laws()
    ensures { ControlPacketLaws }
{}

/// A control packet is taken exactly if it passes each test on reception (RFC 5880, 6.8.6).
pub fn reception_tests()
    ensures { ReceptionTests }
{}

/// How a session goes from state to state by what it hears (RFC 5880, 6.8.6).
pub fn sessions_go_so()
    ensures { SessionsGoSo }
{}

/// An answer tells the state in which a session is that has heard the packet: one that was down, or for a packet
/// that tells Up, one that was in Init or up (RFC 5880, 6.8.6).
pub fn answers_tell_states()
    ensures { AnswersTellStates }
{}

/// A neighbour that isn't held down by an administrator and hears the answer to each packet that it sends is up
/// after one answer, or after two if the first was to an earlier packet, and stays up.
pub fn answers_bring_up()
    ensures { AnswersBringUp }
{}

/// An answer ends a poll and begins none (RFC 5880, 6.5), and while it doesn't tell Up it tells a second or more between
/// two packets (RFC 5880, 6.8.3).
pub fn answers_are_orderly()
    ensures { AnswersAreOrderly }
{}

/// An answer is a control packet of 24 bytes, and its neighbour takes it: one whose discriminator is the one that
/// came with the packet that is answered.
pub fn answers_are_taken()
    ensures { AnswersAreTaken }
{}
