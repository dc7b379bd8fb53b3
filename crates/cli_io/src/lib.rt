//! What the router's commands have in common: lines read and written, and why that ends; datagrams in hex, and how they
//! arrive; counts. Nothing is decided here.
#![tactic(auto)]

mod arrival_context;
mod counts;
mod fault;
mod hex_line;
mod lines;
mod text;

pub use arrival_context::{ArrivalContext, usual_source};
pub use counts::{push_count, push_drops};
pub use fault::LinesFault;
pub use hex_line::read_hex;
pub use lines::{next_line, send};
pub use text::text_of;
