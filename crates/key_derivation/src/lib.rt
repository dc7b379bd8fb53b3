//! The forwarding key of an AS from its master key, as scionproto's control service and routers derive it: PBKDF2
//! (RFC 8018) with HMAC (RFC 2104) over SHA-256. Nothing here allocates and nothing can fail.
#![tactic(auto)]

mod hmac;
mod pbkdf2;

pub use hmac::hmac_sha256;
pub use pbkdf2::{derived_block, forwarding_key};
