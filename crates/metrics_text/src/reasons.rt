//! The causes of drops by name.

ghost use Rattle.std.specs.Prelude.{◌≡◌};
ghost use Rattle.metrics_text.specs.Reasons.{reason_of};

use process_packet::{CAUSES, Cause};

/// All causes, in the order of their numbers.
pub(crate) const EVERY: [Cause; CAUSES] = [
    Cause::Short,
    Cause::Version,
    Cause::PathType,
    Cause::Header,
    Cause::Path,
    Cause::Peering,
    Cause::UnderlaySource,
    Cause::PathEnd,
    Cause::NoAnswer,
    Cause::NoWayBack,
    Cause::TooLong,
    Cause::ProcessorFull,
    Cause::LinkFull,
    Cause::AnswerFull,
    Cause::NoMemory,
    Cause::Closed,
    Cause::SendFailed,
    Cause::NoBuffer,
    Cause::OneHopEnds,
    Cause::OneHopField,
    Cause::OneHopHost,
];

/// The name of a cause: its words, in lower case.
pub(crate) fn reason_of(cause: Cause) -> &'static str
    ensures { result.now ≡ reason_of cause }
{
    match cause {
        Cause::Short => "short",
        Cause::Version => "version",
        Cause::PathType => "path_type",
        Cause::Header => "header",
        Cause::Path => "path",
        Cause::Peering => "peering",
        Cause::UnderlaySource => "underlay_source",
        Cause::PathEnd => "path_end",
        Cause::NoAnswer => "no_answer",
        Cause::NoWayBack => "no_way_back",
        Cause::TooLong => "too_long",
        Cause::ProcessorFull => "processor_full",
        Cause::LinkFull => "link_full",
        Cause::AnswerFull => "answer_full",
        Cause::NoMemory => "no_memory",
        Cause::Closed => "closed",
        Cause::SendFailed => "send_failed",
        Cause::NoBuffer => "no_buffer",
        Cause::OneHopEnds => "one_hop_ends",
        Cause::OneHopField => "one_hop_field",
        Cause::OneHopHost => "one_hop_host",
    }
}
