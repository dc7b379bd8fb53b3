//! Info fields and hop fields.

ghost use Rattle.std.specs.Prelude.{◌≡◌, ◌<◌, ◌^◌, length};

/// An info field (draft-dekater-scion-dataplane, "SCION Path Type"). The peering flag is clear in each, and
/// not kept.
#[derive(Clone, Copy, PartialEq, Eq)]
pub struct Info {
    /// The six flags that no standard names, kept as they came.
    pub reserved_flags: u8,
    /// Whether the segment is travelled in the direction of its construction (C).
    pub along: bool,
    /// The reserved byte, kept as it came.
    pub reserved: u8,
    /// The segment's identifier (SegID), changed from hop to hop.
    pub segment_id: u16,
    /// When the segment was made, in seconds of Unix time.
    pub timestamp: u32,
    pub ghost reserved_flags_fit: { reserved_flags < 2 ^ 6 },
    pub ghost reserved_fits: { reserved < 2 ^ 8 },
    pub ghost segment_id_fits: { segment_id < 2 ^ 16 },
    pub ghost timestamp_fits: { timestamp < 2 ^ 32 },
}

/// A hop field (draft-dekater-scion-dataplane, "Hop Field").
#[derive(Clone, Copy, PartialEq, Eq)]
pub struct Hop {
    /// The six flags that no standard names, kept as they came.
    pub reserved_flags: u8,
    /// The ingress router alert (I): whether the router of the construction ingress is asked to look at the
    /// payload.
    pub ingress_alert: bool,
    /// The egress router alert (E): the same for the router of the construction egress.
    pub egress_alert: bool,
    /// How long the hop is good for after the segment's timestamp, in units of 337.5 seconds, less
    /// one (ExpTime).
    pub expiry: u8,
    /// The interface by which the segment enters the AS in the direction of construction (ConsIngress), or 0
    /// where the segment begins.
    pub construction_ingress: u16,
    /// The interface by which the segment leaves it in that direction (ConsEgress), or 0 where it ends.
    pub construction_egress: u16,
    /// The hop's message authentication code (MAC), six bytes.
    pub mac: [u8; 6],
    pub ghost reserved_flags_fit: { reserved_flags < 2 ^ 6 },
    pub ghost expiry_fits: { expiry < 2 ^ 8 },
    pub ghost construction_ingress_fits: { construction_ingress < 2 ^ 16 },
    pub ghost construction_egress_fits: { construction_egress < 2 ^ 16 },
    pub ghost mac_is_whole: { length mac ≡ 6 },
}

impl Default for Info {
    ghost use Rattle.path_fields.specs.Fields.{info_field, no_info};

    ghost is_default = { λ i. info_field i ≡ no_info };

    fn default() -> Info {
        Info {
            reserved_flags: 0,
            along: false,
            reserved: 0,
            segment_id: 0,
            timestamp: 0,
        }
    }
}

impl Default for Hop {
    ghost use Rattle.path_fields.specs.Fields.{hop_field, no_hop};

    ghost is_default = { λ h. hop_field h ≡ no_hop };

    fn default() -> Hop {
        Hop {
            reserved_flags: 0,
            ingress_alert: false,
            egress_alert: false,
            expiry: 0,
            construction_ingress: 0,
            construction_egress: 0,
            mac: [0; 6],
        }
    }
}
