//! The flow of a datagram.

ghost use Rattle.std.specs.Prelude.{◌<◌, ◌^◌};

/// The flow of a datagram. Two keys are equal where the datagrams belong to one flow.
#[derive(Clone, Copy, PartialEq, Eq)]
pub struct FlowKey<'a> {
    /// The flow that the source has chosen (FlowID), 20 bits.
    pub flow_id: u32,
    /// The kinds and the length codes of both hosts (DT, DL, ST, SL).
    pub host_kinds: u8,
    /// The bytes of the address header: both domains and both hosts.
    pub addresses: &'a [u8],
    /// Whether the datagram is of the high band, where the router has links of two bands; else it is
    /// `false` for each datagram.
    pub high: bool,
    pub ghost flow_id_fits: { flow_id < 2 ^ 20 },
    pub ghost host_kinds_fit: { host_kinds < 2 ^ 8 },
}
