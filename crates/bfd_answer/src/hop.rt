//! The path of an answer: this AS's hop field, out by the link.

ghost use Rattle.std.specs.Prelude.{◌≡◌};
ghost use Rattle.path_fields.specs.Fields.{hop_field, info_field};
ghost use Rattle.process_packet.specs.Network.{network};
ghost use Rattle.bfd_answer.specs.Answer.{answer_hop, answer_info, begun_at};

use hop_check::{chain, hop_mac};
use path_fields::{Hop, Info};
use process_packet::Config;

/// For how long the hop field is good (ExpTime): six hours.
const EXPIRY: u8 = 63;

/// The info field of a segment that begins at this moment, in the direction of its construction. The timestamp has 32
/// bits.
fn begun_at(now: u64) -> Info
    ensures { info_field result ≡ begun_at now }
{
    Info {
        reserved_flags: 0,
        along: true,
        reserved: 0,
        segment_id: 0,
        timestamp: (now % 0x1_0000_0000) as u32,
    }
}

/// The hop field of this AS, which leads from nowhere to the link, with its MAC.
fn hop_out(config: &Config, link: u16, info: &Info) -> Hop
    ensures { hop_field result ≡ answer_hop config.now.key link (info_field info.now) }
{
    let mut hop = Hop {
        reserved_flags: 0,
        ingress_alert: false,
        egress_alert: false,
        expiry: EXPIRY,
        construction_ingress: 0,
        construction_egress: link,
        mac: [0; 6],
    };
    let mac = hop_mac(&config.key, info, &hop);
    hop.mac = mac;
    hop
}

/// The info field and the first hop field of an answer that leaves at this moment: the segment's identifier is 0,
/// chained by the hop field as the packet leaves its AS.
pub(crate) fn path_out(config: &Config, link: u16, now: u64) -> (Info, Hop)
    ensures info { info_field result.0 ≡ answer_info (network config.now).key link now }
    ensures hop { hop_field result.1 ≡ answer_hop (network config.now).key link (begun_at now) }
{
    let begun = begun_at(now);
    let hop = hop_out(config, link, &begun);
    let info = Info {
        reserved_flags: 0,
        along: true,
        reserved: 0,
        segment_id: chain(0, &hop.mac),
        timestamp: begun.timestamp,
    };
    (info, hop)
}
