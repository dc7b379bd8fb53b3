//! The common header and the address header.

ghost use Rattle.std.specs.Prelude.{◌+◌, ◌*◌, ◌<◌, ◌≤◌, ◌^◌};
ghost use Rattle.scion_packet.specs.Header.{host_len};
ghost use Rattle.scion_header.specs.Host.{length_code};

use crate::address::Address;

/// The common header and the address header (draft-dekater-scion-dataplane, "SCION Header Specification").
/// The version is 0 and the path type that of a SCION path in each, if it isn't written for another one
/// (`write_header_as`).
#[derive(Clone, Copy, PartialEq, Eq)]
pub struct Header {
    /// The traffic class (TrafficClass): six bits of differentiated services, then two bits of congestion
    /// notification.
    pub traffic_class: u8,
    /// The flow that the source has chosen (FlowID), 20 bits.
    pub flow_id: u32,
    /// The protocol of what follows the header (NextHdr): 17 is UDP, 202 SCMP.
    pub next_header: u8,
    /// The length of the whole header, path included, in units of four bytes (HdrLen).
    pub header_length: u8,
    /// The length in bytes of what follows the header (PayloadLen).
    pub payload_length: u16,
    /// The reserved bits, kept as they came.
    pub reserved: u16,
    /// The end host for which the packet is.
    pub destination: Address,
    /// The end host from which it is.
    pub source: Address,
    pub ghost traffic_class_fits: { traffic_class < 2 ^ 8 },
    pub ghost flow_id_fits: { flow_id < 2 ^ 20 },
    pub ghost next_header_fits: { next_header < 2 ^ 8 },
    pub ghost header_length_fits: { header_length < 2 ^ 8 },
    pub ghost payload_length_fits: { payload_length < 2 ^ 16 },
    pub ghost reserved_fits: { reserved < 2 ^ 16 },
    pub ghost covers_addresses: { 28 + host_len (length_code destination.host) + host_len (length_code source.host) ≤ 4 * header_length },
}

impl Header {
    ghost use Rattle.std.specs.Prelude.{◌≡◌};
    ghost use Rattle.scion_packet.specs.Header.{front_len};
    ghost use Rattle.scion_header.specs.Header.{header_fields};

    /// How many bytes the common header and the address header have: the path begins after them.
    pub fn front_len(&self) -> usize
        ensures { result ≡ front_len (header_fields self.now) }
    {
        28 + self.destination.host.as_slice().len() + self.source.host.as_slice().len()
    }
}
