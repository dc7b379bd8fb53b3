//! What the pipeline asks of the router of one packet: where it goes, what is decided of it, what answers it.

ghost use Rattle.std.specs.Prelude.{◌≡◌, IfOk};
ghost use Rattle.replay_laws.specs.Next as next;
ghost use Rattle.order_laws.specs.Pipes.{home};
ghost use Rattle.process_packet.specs.Decide.{decide, moved};
ghost use Rattle.process_packet.specs.Network.{network};
ghost use Rattle.router_rules.specs.Rules.{rules};
ghost use Rattle.replay_state.specs.Items.{arrival_in, item_in};
ghost use Rattle.replay_state.specs.Outcomes.{outcome_in};

use crate::bytes::Bytes;
use crate::came::Came;
use crate::cause::Cause;
use crate::item::{Item, Out, Parcel};
use crate::packet::{Packet, Request};
use packet_answer::{AnswerLen, LONGEST_ANSWER, answer_into};
use process_packet::{Config, Decision, answers_are_sound, route_in_place};
use replay_places::{link_pipe, slow_seat};
use router_rules::{has_two_bands, is_urgent, link_count, link_index, processor};
use std::alloc::{AllocError, Global};

/// What a worker makes of an item: another item, or the end of it.
#[derive(Drop)]
pub enum Outcome {
    Makes(Item),
    Ends(Cause),
}

/// The place of the pipe that an item goes to: its flow's processor, the slow path, its leaving link in
/// its band.
pub fn home(config: &Config, item: &Item) -> usize
    ensures { result ≡ home (rules config.now) (item_in item.now) }
{
    match item {
        Item::Packet(packet) => {
            link_count(config) + processor(config, packet.came.bytes.as_slice())
        }
        Item::Out(out) => {
            let high = has_two_bands(config, out.link) && is_urgent(out.parcel.bytes.as_slice());
            link_pipe(config, high, out.link)
        }
        Item::Arrived(_) | Item::Request(_) | Item::Close | Item::End => slow_seat(config),
    }
}

/// What is decided of a datagram, and its bytes afterwards.
fn route(config: &Config, came: &Came) -> Result<(Decision, Bytes), AllocError>
    ensures decision { IfOk result (λ made. made.0 ≡ decide (network config.now) came.entry.now.interface came.entry.now.source came.entry.now.now came.entry.now.bytes) }
    ensures bytes { IfOk result (λ made. made.1 ≡ moved (network config.now) came.entry.now.interface came.entry.now.source came.entry.now.now came.entry.now.bytes) }
{
    let mut bytes = came.bytes.to_vec()?;
    let decision = route_in_place(
        config,
        came.interface,
        came.source,
        came.now,
        bytes.as_mut_slice(),
    );
    Ok((decision, Bytes::new(bytes)))
}

/// What a processor makes of a packet: an egress packet, a slow-path request, or its end for a
/// cause. `Err` where no memory is left.
pub fn decide(config: &Config, packet: &Packet) -> Result<Outcome, AllocError>
    ensures { IfOk result (λ made. outcome_in made ≡ next.decided (arrival_in packet.now.came) ((rules config.now).decide (arrival_in packet.now.came))) }
{
    let came = &packet.came;
    let (decision, bytes) = route(config, came)?;
    match decision {
        Decision::Send { link, to } => Ok(Outcome::Makes(Item::Out(Out {
            arrived: came.link,
            number: came.number,
            answer: false,
            link: link_index(config, link),
            parcel: Parcel {
                came_by: came.interface,
                to,
                bytes,
            },
        }))),
        Decision::Answer(problem) => {
            answers_are_sound();
            // The bytes are as they came.
            let came = came.with(bytes);
            Ok(Outcome::Makes(Item::Request(Request { came, problem })))
        }
        Decision::Drop(reason) => Ok(Outcome::Ends(Cause::Ruled(reason))),
    }
}

/// What the slow path makes of a request: the answer, or its end for the cause for which there is
/// none. `Err` where no memory is left.
pub fn reply(alloc: Global, config: &Config, request: &Request) -> Result<Outcome, AllocError>
    ensures { IfOk result (λ made. outcome_in made ≡ next.replied (arrival_in request.now.came) ((rules config.now).reply (arrival_in request.now.came) request.now.problem)) }
{
    let came = &request.came;
    let (interface, source, now) = (came.interface, came.source, came.now);
    let mut out = [0; LONGEST_ANSWER];
    let bytes = came.bytes.as_slice();
    match answer_into(
        config,
        interface,
        source,
        now,
        bytes,
        &request.problem,
        &mut out,
    ) {
        AnswerLen::Send { link, to, len } => {
            let bytes = Vec::from_slice(alloc, &out[..len])?;
            Ok(Outcome::Makes(Item::Out(Out {
                arrived: came.link,
                number: came.number,
                answer: true,
                link: link_index(config, link),
                parcel: Parcel {
                    came_by: came.interface,
                    to,
                    bytes: Bytes::new(bytes),
                },
            })))
        }
        AnswerLen::Drop(reason) => Ok(Outcome::Ends(Cause::Ruled(reason))),
    }
}
