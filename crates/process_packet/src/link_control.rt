//! BFD, by which the routers at both ends of a link watch it (RFC 5880): which of its control packets are answered.

ghost use Rattle.std.specs.Prelude.{◌≡◌};
ghost use Rattle.process_packet.specs.LinkControl.{is_answered};
ghost use Rattle.process_packet.specs.Network.{network};

use crate::config::Config;
use bfd_control::is_taken;

/// The protocol number of BFD control packets behind a SCION header, and the kind of the problem that has one answered.
pub const BFD: u8 = 203;

/// The flow (FlowID) of what answers a BFD control packet. That isn't answered in turn.
pub const BFD_ANSWER_FLOW: u32 = 0xbfda0;

/// Whether a control packet that came by the link, with this flow and these bytes, is answered.
#[tactic(auto, unfolding(crate::specs::LinkControl::is_answered))]
pub(crate) fn is_answered(config: &Config, link: u16, flow: u32, payload: &[u8]) -> bool
    ensures { result ≡ is_answered (network config.now) link flow payload.now }
{
    config.answers_bfd(link) && flow != BFD_ANSWER_FLOW && is_taken(u32::from(link), payload)
}
