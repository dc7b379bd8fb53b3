//! An isolation domain and an AS in it.

ghost use Rattle.std.specs.Prelude.{◌<◌, ◌^◌};

/// The AS of an end host.
#[derive(Clone, Copy, PartialEq, Eq)]
pub struct Domain {
    /// The isolation domain, 16 bits.
    pub isd: u16,
    /// The AS number, 48 bits.
    pub autonomous_system: u64,
    pub ghost isd_fits: { isd < 2 ^ 16 },
    pub ghost autonomous_system_fits: { autonomous_system < 2 ^ 48 },
}
