//! `router route`, over any reader and writer: answers datagrams line by line.
#![tactic(auto)]

mod answers;
mod route;

pub use route::route_lines;
