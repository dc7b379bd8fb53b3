//! A page over HTTP, for one client after the other: `GET /metrics` gets it. Who asks too much, too
//! slowly or nothing is cut off. It takes memory for one request and one page.
//!
//! What a socket gives and takes is the system's, and no contract tells it. Contracts tell what a
//! request asks for, by the grammar of HTTP, and what is written for it, byte for byte.
#![tactic(auto)]

mod connection;
mod exchange;
mod page;
mod request;
mod response;
mod server;

pub use exchange::{REQUEST_MOST, Room, answer_one};
pub use page::Page;
pub use request::{Asked, request_of};
pub use response::push_response;
pub use server::serve;
