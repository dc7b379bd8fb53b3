//! Hop fields that tests are about.

ghost use Rattle.std.specs.Prelude.{◌≡◌, false};

use path_fields::Hop;

/// A hop field between two links, named in the direction of construction, without a flag.
pub fn hop_between(ingress: u16, egress: u16, expiry: u8, mac: [u8; 6]) -> Hop
    ensures links { (result.construction_ingress ≡ ingress) × (result.construction_egress ≡ egress) }
    ensures rest { (result.expiry ≡ expiry) × (result.mac ≡ mac) }
    ensures alerts { (result.ingress_alert ≡ false) × (result.egress_alert ≡ false) }
{
    Hop {
        reserved_flags: 0,
        ingress_alert: false,
        egress_alert: false,
        expiry,
        construction_ingress: ingress,
        construction_egress: egress,
        mac,
    }
}
