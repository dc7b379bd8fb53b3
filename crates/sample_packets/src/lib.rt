//! What the tests of several crates share: a router, and a datagram that crosses it. A case is written as
//! this datagram with other bytes at an offset, so that what changed is seen.
#![tactic(auto)]

mod control;
mod datagram;
mod router;

pub use control::{FINAL, POLL};
pub use datagram::{
    ANSWER, FIRST, IN_TIME, LATE, MAC_AT, OTHER_MAC, PATH_AT, PAYLOAD_AT, with_bytes,
};
pub use router::{CONFIGURATION, KEY};
