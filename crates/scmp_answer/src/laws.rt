//! What answers tell, and what is never answered: nothing here runs.

ghost use Rattle.scmp_answer.specs.Telling.{AnswersTellProblems};
ghost use Rattle.scmp_answer.specs.Unanswered.{ErrorsAreLeftUnanswered, NoErrorIsAnswered};

/// No SCMP error message is answered, whoever made it: what carries one after its extensions, or can't be told
/// from one that does, is dropped wherever a router finds a problem with it.
pub fn no_error_is_answered()
    ensures { NoErrorIsAnswered }
{}

/// An answer of type 1 or 4 is such a message: wherever it comes to and isn't sent on there, it is dropped,
/// whatever the problem.
pub fn errors_are_left_unanswered()
    ensures { ErrorsAreLeftUnanswered }
{}

/// An answer that is sent goes back by the link by which its packet came, to the packet's source, with its
/// traffic class and its flow. It is an SCMP message of the problem's type, code and pointer, which quotes the
/// datagram from its first byte on, but for a traceroute reply.
pub fn answers_tell_problems()
    ensures { AnswersTellProblems }
{}
