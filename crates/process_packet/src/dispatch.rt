//! The decision of a datagram, by the table for its path type.

ghost use Rattle.std.specs.Prelude.{◌≡◌};
ghost use Rattle.process_packet.specs.Decide.{decide, is_one_hop, moved};
ghost use Rattle.process_packet.specs.Network.{network};

use crate::config::Config;
use crate::decide::scion_in_place;
use crate::decision::Decision;
use crate::one_hop::one_hop_in_place;
use crate::underlay::Underlay;

/// The path type of a path of one hop.
pub(crate) const ONE_HOP_PATH: u8 = 2;

/// Whether the datagram is on a path of one hop, and such paths are taken from the link by which it came: those
/// over which the configuration has them carried, and the internal network if there is such a link.
#[inline(always)]
#[tactic(auto, unfolding(crate::specs::Decide::is_one_hop))]
pub fn is_one_hop(config: &Config, link: u16, bytes: &[u8]) -> bool
    ensures { result ≡ is_one_hop (network config.now) link bytes.now }
{
    bytes.len() > 8 && bytes[8] == ONE_HOP_PATH && config.takes_one_hop(link)
}

/// What is done with a datagram that arrived on the link (0 is the internal network) from the
/// underlay's source, at the second `now` of Unix time. Where it is sent, its bytes are changed to those
/// that leave: on a SCION path at most the cursor and two segment identifiers, five bytes; on a path of one hop
/// the identifier, two bytes, or the second hop field, twelve. Else they stay as they are.
///
/// It takes no memory, and its cost grows neither with the path nor with the payload.
pub fn route_in_place(
    config: &Config,
    link: u16,
    source: Underlay,
    now: u64,
    bytes: &mut [u8],
) -> Decision
    ensures decision { result ≡ decide (network config.now) link source now bytes.old }
    ensures bytes { bytes.new ≡ moved (network config.now) link source now bytes.old }
{
    if is_one_hop(config, link, bytes) {
        return one_hop_in_place(config, link, &source, now, bytes);
    }
    scion_in_place(config, link, &source, now, bytes)
}
