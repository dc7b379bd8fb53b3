//! The decision of a datagram, with the bytes that leave in a vector of their own.

ghost use Rattle.std.specs.Prelude.{◌≡◌, IfOk, MatchResult};
ghost use Rattle.process_packet.specs.Network.{network};
ghost use Rattle.process_packet.specs.Routed.{IsRouted, IsSend, bytes_for, decision_for};

use crate::arrival::{Arrival, NoMemory, Routed};
use crate::cause::Cause;
use crate::config::Config;
use crate::decision::Decision;
use crate::dispatch::route_in_place;
use crate::parsed_headers::LONGEST_DATAGRAM;
use std::alloc::Global;

/// A copy of the bytes.
fn copy_of(alloc: Global, bytes: &[u8]) -> Result<Vec<u8>, NoMemory>
    ensures { IfOk result (λ v. v.items ≡ bytes.now) }
{
    let mut copy = Vec::new(alloc);
    match copy.extend_from_slice(bytes) {
        Ok(()) => Ok(copy),
        Err(_) => Err(NoMemory),
    }
}

/// What is done with a datagram that arrived, and the bytes that leave where it is sent. Memory is taken
/// for these alone: `NoMemory` is answered only for a packet that would be sent. The arrival stays as it is.
pub fn route(alloc: Global, config: &Config, arrival: &Arrival) -> Result<Routed, NoMemory>
    ensures { MatchResult result (IsRouted (decision_for (network config.now) arrival.entry.now) (bytes_for (network config.now) arrival.entry.now))
        (λ _. IsSend (decision_for (network config.now) arrival.entry.now)) }
{
    let len = arrival.bytes.len();
    if len > LONGEST_DATAGRAM {
        return Ok(Routed::Drop(Cause::TooLong));
    }
    let mut room = [0; LONGEST_DATAGRAM];
    let bytes = &mut room[..len];
    bytes.copy_from_slice(arrival.bytes.as_slice());
    match route_in_place(config, arrival.link, arrival.source, arrival.now, bytes) {
        Decision::Send { link, to } => {
            let bytes = copy_of(alloc, bytes)?;
            Ok(Routed::Send { link, to, bytes })
        }
        Decision::Answer(problem) => Ok(Routed::Answer(problem)),
        Decision::Drop(cause) => Ok(Routed::Drop(cause)),
    }
}
