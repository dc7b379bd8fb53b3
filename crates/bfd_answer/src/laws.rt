//! What is promised of answers as a whole: nothing here runs.

ghost use Rattle.bfd_answer.specs.Crossing.{AnswersCross, ControlPacketsAreAnswered};

/// A control packet is answered by each link whose configuration names a neighbour.
pub fn control_packets_are_answered()
    ensures { ControlPacketsAreAnswered }
{}

/// An answer is let through by the neighbour's own router up to the row for BFD, if that router names this AS as its
/// neighbour, and sends to the address from which the answer comes; there it is known by its flow as an answer. The
/// session that sent the packet takes the answer to it.
pub fn answers_cross()
    ensures { AnswersCross }
{}
