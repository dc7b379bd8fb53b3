//! The line that `route` writes for each line that it reads.
ghost use Rattle.std.specs.Prelude.{◌≡◌, ◌++◌, ◌*◌, length, IfOk, OnOk, Ok, Some, None, codes, decimal, if◌then◌else◌};
ghost use Rattle.hex.specs.Hex.{encode_lower};
ghost use Rattle.packet_answer.specs.Answer.{IsAnswerable};
ghost use Rattle.process_packet.specs.declared.decision.Problem.{Problem as Told};
ghost use Rattle.cli_route.specs.Answers.{answer_for, answer_to, drop_text, reply_text, sent_text, text_for, to_text};

use cli_io::{ArrivalContext, read_hex};
use packet_answer::{AnswerLen, LONGEST_ANSWER, answer_into};
use process_packet::{
    Cause, Config, Decision, Problem, Underlay, answers_are_sound, route_in_place,
};
use std::alloc::AllocError;
use text_values::{push_decimal, push_underlay};

/// Adds the bytes to the text, two lower-case hex digits each.
fn push_hex(text: &mut Vec<u8>, bytes: &[u8]) -> Result<(), AllocError>
    ensures { OnOk result (text.new.items ≡ text.old.items ++ encode_lower bytes.now) }
{
    let start = text.len();
    let Some(digits) = bytes.len().checked_mul(2) else {
        return Err(AllocError);
    };
    let Some(end) = start.checked_add(digits) else {
        return Err(AllocError);
    };
    text.resize(end, 0)?;
    let written = hex::encode_to_slice(bytes, &mut text[start..end]);
    prove!(written.is_ok());
    Ok(())
}

/// Adds where a packet is sent, or `-` where its link leads to one place alone.
fn push_to(text: &mut Vec<u8>, to: Option<Underlay>) -> Result<(), AllocError>
    ensures { OnOk result (text.new.items ≡ text.old.items ++ to_text to) }
{
    match to {
        Some(to) => push_underlay(text, &to),
        None => text.extend_from_slice(b"-"),
    }
}

/// Adds the link, where the packet is sent there, and its bytes.
fn push_sent(
    text: &mut Vec<u8>,
    link: u16,
    to: Option<Underlay>,
    bytes: &[u8],
) -> Result<(), AllocError>
    ensures { OnOk result (text.new.items ≡ text.old.items ++ sent_text link to bytes.now) }
{
    push_decimal(text, link)?;
    text.extend_from_slice(b" ")?;
    push_to(text, to)?;
    text.extend_from_slice(b" ")?;
    push_hex(text, bytes)
}

/// Adds a drop and its cause.
fn push_drop(text: &mut Vec<u8>, cause: Cause) -> Result<(), AllocError>
    ensures { OnOk result (text.new.items ≡ text.old.items ++ drop_text cause) }
{
    text.extend_from_slice(b"drop ")?;
    push_decimal(text, cause.number())
}

/// Adds what becomes of a problem of the datagram, which has no fault: the answer, or a drop.
fn push_answer(
    text: &mut Vec<u8>,
    config: &Config,
    arriving: &ArrivalContext,
    bytes: &[u8],
    problem: &Problem,
) -> Result<(), AllocError>
    requires { IsAnswerable bytes.now problem.now }
    ensures { OnOk result (text.new.items ≡ text.old.items ++ reply_text config.now arriving.now bytes.now problem.now) }
{
    let (link, source, moment) = (arriving.link, arriving.source, arriving.moment);
    let mut room = [0; LONGEST_ANSWER];
    match answer_into(config, link, source, moment, bytes, problem, &mut room) {
        AnswerLen::Send { link, to, len } => {
            text.extend_from_slice(b"answer ")?;
            push_sent(text, link, to, &room[..len])
        }
        AnswerLen::Drop(cause) => push_drop(text, cause),
    }
}

/// Replaces the text with the line for a decision, after which the datagram has these bytes.
fn write_answer(
    config: &Config,
    arriving: &ArrivalContext,
    decision: Decision,
    bytes: &[u8],
    text: &mut Vec<u8>,
) -> Result<(), AllocError>
    requires { (p : Told) → decision ≡ Decision.Answer p → IsAnswerable bytes.now p }
    ensures { OnOk result (text.new.items ≡ text_for config.now arriving.now decision bytes.now) }
{
    text.clear();
    match decision {
        Decision::Send { link, to } => {
            text.extend_from_slice(b"send ")?;
            push_sent(text, link, to, bytes)?;
        }
        Decision::Answer(problem) => push_answer(text, config, arriving, bytes, &problem)?,
        Decision::Drop(cause) => push_drop(text, cause)?,
    }
    text.extend_from_slice(b"\n")
}

/// Decides on a datagram where it lies, and replaces the text with its line.
fn decide_line(
    config: &Config,
    arriving: &ArrivalContext,
    bytes: &mut [u8],
    text: &mut Vec<u8>,
) -> Result<(), AllocError>
    ensures { OnOk result (text.new.items ≡ answer_for config.now arriving.now bytes.old) }
{
    let decision = route_in_place(
        config,
        arriving.link,
        arriving.source,
        arriving.moment,
        bytes,
    );
    answers_are_sound();
    write_answer(config, arriving, decision, bytes, text)
}

/// Replaces the text with the answer to a line, by way of the datagram's bytes; false where the
/// line is no hex. At `Err` no memory was left, and text and bytes mean nothing.
pub fn answer_line(
    config: &Config,
    arriving: &ArrivalContext,
    line: &[u8],
    bytes: &mut Vec<u8>,
    text: &mut Vec<u8>,
) -> Result<bool, AllocError>
    ensures { IfOk result (λ is_hex.
        answer_to config.now arriving.now line.now ≡ (if is_hex then Some text.new.items else None)) }
{
    if !read_hex(line, bytes)? {
        return Ok(false);
    }
    decide_line(config, arriving, bytes.as_mut_slice(), text)?;
    Ok(true)
}
