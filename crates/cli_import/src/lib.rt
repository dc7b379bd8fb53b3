//! `router import`: a configuration of this router from scionproto's topology and master key.
#![tactic(auto)]

mod configure;
mod import;
mod imported;
mod made;
mod master_key;
mod out;

pub use import::{import_config, import_texts};
