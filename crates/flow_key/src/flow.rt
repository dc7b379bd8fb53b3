//! The flow that a datagram belongs to.

ghost use Rattle.std.specs.Prelude.{◌≡◌, ◌≤◌, length, option_map};
ghost use Rattle.flow_key.specs.Flow.{flow_at, flow_of, is_high};
ghost use Rattle.flow_key.specs.Key.{flow};
ghost use Rattle.scion_packet.specs.Header.{front_end};

use crate::key::FlowKey;
use scion_header::{check_header, flow_id, front_end, traffic_class};

/// The differentiated services code point of expedited forwarding (RFC 3246).
const EXPEDITED_FORWARDING: u8 = 46;

/// Whether a datagram with this traffic class is of the high band: the six bits of its differentiated
/// services field (RFC 2474) ask for expedited forwarding.
pub fn is_high(traffic_class: u8) -> bool
    ensures { result ≡ is_high traffic_class }
{
    traffic_class / 4 == EXPEDITED_FORWARDING
}

/// The flow of a datagram that is as long as its addresses, on a SCION path or on a path of one hop:
/// its FlowID, the kinds of its hosts and its addresses, and where `banded`, the band of its traffic
/// class.
pub fn flow_at(bytes: &[u8], banded: bool) -> FlowKey<'_>
    requires addresses { front_end bytes.now ≤ length bytes.now }
    ensures { flow result ≡ flow_at banded bytes.now }
{
    FlowKey {
        flow_id: flow_id(bytes),
        host_kinds: bytes[9],
        addresses: &bytes[12..front_end(bytes)],
        high: banded && is_high(traffic_class(bytes)),
    }
}

/// The flow of a datagram on a SCION path, as `flow_at` has it. There is none where the header is refused.
pub fn flow_of(bytes: &[u8], banded: bool) -> Option<FlowKey<'_>>
    ensures { option_map flow result ≡ flow_of banded bytes.now }
{
    check_header(bytes).ok()?;
    Some(flow_at(bytes, banded))
}
