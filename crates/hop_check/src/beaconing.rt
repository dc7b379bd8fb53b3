//! The hop fields of a segment, made as beacons carry them from AS to AS.

ghost use Rattle.std.specs.Prelude.{◌≡◌, length, map};
ghost use Rattle.scion_packet.specs.Path.{InfoField};
ghost use Rattle.hop_check.specs.Beaconing.{AreBeaconed, without_mac};
ghost use Rattle.hop_check.specs.Mac.{chain, mac6};
ghost use Rattle.path_fields.specs.Fields.{hop_field};

use crate::mac::{chain, hop_mac};
use cmac_core::Cmac;
use path_fields::{Hop, Info};

/// Writes the MAC of a hop field, for an identifier and its segment's timestamp, and answers the
/// identifier chained by it.
fn write_mac(key: &Cmac, segment_id: u16, timestamp: u32, hop: &mut Hop) -> u16
    ensures chained { result ≡ chain segment_id hop.new.mac }
    ensures mac { (info : InfoField) → info.timestamp ≡ timestamp → hop.new.mac ≡ mac6 key.now segment_id info (hop_field hop.new) }
    ensures others { without_mac hop.new ≡ without_mac hop.old }
{
    let info = Info {
        reserved_flags: 0,
        along: true,
        reserved: 0,
        segment_id,
        timestamp,
    };
    let mac = hop_mac(key, &info, hop);
    hop.mac = mac;
    chain(segment_id, &mac)
}

/// Writes the MACs of a segment's hop fields, which are in the direction of construction, each with
/// the key of its AS. The first is made for the identifier `beta`, each other one for the identifier
/// chained by the MAC before it (draft-dekater-scion-dataplane, "Hop Field MAC Computation").
///
/// There are as many keys as hop fields. Everything else in the hop fields stays.
pub fn beacon(keys: &[Cmac], beta: u16, timestamp: u32, hops: &mut [Hop])
    requires { length keys.now ≡ length hops.old }
    ensures macs { (info : InfoField) → info.timestamp ≡ timestamp → AreBeaconed keys.now beta info (map hop_field hops.new) }
    ensures others { map without_mac hops.new ≡ map without_mac hops.old }
{
    let mut chained = beta;
    for k in 0..hops.len() {
        chained = write_mac(&keys[k], chained, timestamp, &mut hops[k]);
    }
}
