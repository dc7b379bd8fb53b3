//! The processor and the band of a datagram, by its flow and its traffic class.

ghost use Rattle.std.specs.Prelude.{◌≡◌, ◌<◌, ◌≤◌, Some, None, OnOk, IfOk, IfErr, false, length};
ghost use Rattle.flow_key.specs.Flow.{flow_at};
ghost use Rattle.flow_key.specs.Hash.{processor_of};
ghost use Rattle.router_rules.specs.Rules.{inspected, is_urgent};
ghost use Rattle.scion_packet.specs.Header.{front_end};

use crate::faults::inspect;
use flow_key::{flow_at, is_high, processor_of};
use process_packet::{Cause, Config};
use scion_header::traffic_class;

/// The processor of a datagram's flow, from 0 on, where its addresses are there.
pub fn processor(config: &Config, bytes: &[u8]) -> usize
    requires addresses { front_end bytes.now ≤ length bytes.now }
    ensures processor { result ≡ processor_of (flow_at false bytes.now) config.now.seed config.now.processors }
    ensures there { result < config.now.processors }
{
    processor_of(
        &flow_at(bytes, false),
        config.seed,
        usize::from(config.processors),
    )
}

/// The processor of the flow of a datagram that came by a link, or the cause for which a receiver drops the
/// datagram.
pub fn processor_or_fault(config: &Config, link: u16, bytes: &[u8]) -> Result<usize, Cause>
    ensures place { IfOk result (λ at. at ≡ processor_of (flow_at false bytes.now) config.now.seed config.now.processors) }
    ensures there { IfOk result (λ at. at < config.now.processors) }
    ensures clear { OnOk result (inspected config.now link bytes.now ≡ None) }
    ensures cause { IfErr result (λ why. inspected config.now link bytes.now ≡ Some why) }
{
    match inspect(config, link, bytes) {
        None => Ok(processor(config, bytes)),
        Some(why) => Err(why),
    }
}

/// Whether a datagram goes to the high band of a link that has two: its traffic class asks for expedited
/// forwarding.
pub fn is_urgent(bytes: &[u8]) -> bool
    ensures { result ≡ is_urgent bytes.now }
{
    is_high(traffic_class(bytes))
}
