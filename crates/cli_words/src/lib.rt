//! The words of the program's command line, and what they ask for.
#![tactic(auto)]

mod import_words;
mod words;

pub use import_words::ImportWords;
pub use words::{Subcommand, VERSION, WordsFault, read_words};
