//! Why a packet, or the answer to it, ended without being sent.

ghost use Rattle.std.specs.Prelude.{◌≡◌};
ghost use Rattle.replay_state.specs.Causes.{cause_in};
ghost use Rattle.router_rules.specs.Causes.{booked_as};

use process_packet::Cause as RouterCause;

/// Why a packet, or the answer to it, ended without being sent.
#[derive(Clone, Copy, PartialEq, Eq)]
pub enum Cause {
    /// The router's rules dropped it, or withheld the answer.
    Ruled(RouterCause),
    /// The pipe of its processor was full.
    ProcessorFull,
    /// The pipe of its leaving link was full.
    LinkFull,
    /// The pipe of the slow path was full.
    AnswerFull,
    /// Memory ran out.
    NoMemory,
    /// Its leaving link was closed.
    Closed,
    /// The device of its leaving link failed.
    SendFailed,
    /// Its arriving link had no free buffer.
    NoBuffer,
}

/// The cause under which the router counts it.
pub fn reason(cause: Cause) -> RouterCause
    ensures { result ≡ booked_as (cause_in cause) }
{
    match cause {
        Cause::Ruled(reason) => reason,
        Cause::ProcessorFull => RouterCause::ProcessorFull,
        Cause::LinkFull => RouterCause::LinkFull,
        Cause::AnswerFull => RouterCause::AnswerFull,
        Cause::NoMemory => RouterCause::NoMemory,
        Cause::Closed => RouterCause::Closed,
        Cause::SendFailed => RouterCause::SendFailed,
        Cause::NoBuffer => RouterCause::NoBuffer,
    }
}
