//! The common header and the address header of a SCION packet, read and written exactly
//! (draft-dekater-scion-dataplane, "SCION Header Specification").
//!
//! A datagram is read to the plain record of its numbers that `scion_packet` defines, or refused with
//! the first of its tests that fails; what is written is the text that `scion_packet` has for that
//! record. Neither takes memory, and both cost the same for every datagram.
#![tactic(auto)]

mod address;
mod domain;
mod ends;
mod extensions;
mod fault;
mod fields;
mod header;
mod host;
mod laws;
mod reading;
mod upper;
mod writing;

pub use address::Address;
pub use domain::Domain;
pub use ends::HeaderEnds;
pub use extensions::{upper_layer, upper_place};
pub use fault::{HeaderFault, NoRoom};
pub use fields::{
    destination_address, destination_domain, flow_id, front_end, next_header, payload_length,
    source_domain, traffic_class,
};
pub use header::Header;
pub use host::Host;
pub use laws::header_is_lawful;
pub use reading::{check_header, check_header_as, read_header};
pub use upper::{Upper, UpperPlace};
pub use writing::{write_header, write_header_as};
