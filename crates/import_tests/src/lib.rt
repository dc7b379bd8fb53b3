//! Tests of the import from scionproto: of the key's derivation by the RFCs' vectors, of what a
//! topology says, and of the configuration's text.
#![tactic(auto)]

mod digest;
#[cfg(test)]
mod keys;
#[cfg(test)]
mod topologies;

pub use digest::joined;
