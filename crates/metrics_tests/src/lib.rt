//! Tests of the text of a running router's counts, and of the server that shows it, over readers
//! and writers in memory and over this machine's own addresses. Nothing here runs in the router.
#![tactic(auto)]

#[cfg(test)]
mod exchange;
mod fixed_page;
#[cfg(test)]
mod server;
#[cfg(test)]
mod text;

pub use fixed_page::FixedPage;
