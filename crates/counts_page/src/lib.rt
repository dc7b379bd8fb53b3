//! The page that a running router shows: what its workers posted so far, for each link and each
//! cause, as text.
#![tactic(auto)]

mod closings;
mod counts_page;

pub use closings::Closings;
pub use counts_page::CountsPage;
