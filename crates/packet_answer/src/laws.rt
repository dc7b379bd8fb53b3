//! What is promised of answers as a whole: nothing here runs.

ghost use Rattle.packet_answer.specs.Answer.{ControlPacketsAreAnswered};

/// What is answered by BFD is never left unanswered where the link's configuration names a neighbour: the answer leaves
/// by the same link, to its other end.
pub fn control_packets_are_answered()
    ensures { ControlPacketsAreAnswered }
{}
