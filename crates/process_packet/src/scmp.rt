//! The SCMP types and codes with which a decision answers (SCMP specification, "Destination Unreachable",
//! "Parameter Problem", "Traceroute Reply").

/// Type 1, destination unreachable.
pub const DESTINATION_UNREACHABLE: u8 = 1;

/// Its code 0, no route to the destination.
pub(crate) const NO_ROUTE: u8 = 0;

/// Type 4, parameter problem.
pub const PARAMETER_PROBLEM: u8 = 4;

/// Its code 19, invalid packet size.
pub(crate) const INVALID_PACKET_SIZE: u8 = 19;

/// Its code 21, unknown address format.
pub(crate) const UNKNOWN_ADDRESS_FORMAT: u8 = 21;

/// Its code 33, invalid source address.
pub(crate) const INVALID_SOURCE_ADDRESS: u8 = 33;

/// Its code 34, invalid destination address.
pub(crate) const INVALID_DESTINATION_ADDRESS: u8 = 34;

/// Its code 48, invalid path.
pub(crate) const INVALID_PATH: u8 = 48;

/// Its code 49, unknown hop field ConsIngress interface.
pub(crate) const UNKNOWN_CONS_INGRESS: u8 = 49;

/// Its code 50, unknown hop field ConsEgress interface.
pub(crate) const UNKNOWN_CONS_EGRESS: u8 = 50;

/// Its code 51, invalid hop field MAC.
pub(crate) const INVALID_HOP_FIELD_MAC: u8 = 51;

/// Its code 52, path expired.
pub(crate) const PATH_EXPIRED: u8 = 52;

/// Its code 53, invalid segment change.
pub(crate) const INVALID_SEGMENT_CHANGE: u8 = 53;

/// Type 131, traceroute reply; its code is 0.
pub const TRACEROUTE_REPLY: u8 = 131;
