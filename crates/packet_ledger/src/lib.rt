//! Exact counts over threads: what was received, and what became of it, cause by cause.
//!
//! Each worker counts on a share of its own, which no other thread sees, and posts it into the one book
//! now and then. Under the book's lock lie the sums of all that was posted, and what each share posted as
//! received and as forwarded. With every share handed back the book is closed, and its totals are the sums
//! of all that was ever counted. Meanwhile others may look at the book.
//!
//! Shares, book and looks are tied by tokens that exist in proofs alone: a share's token knows what the
//! share posted, the book's knows what its sums are, a look's what it saw of them, and the rule of the
//! tokens' cell is that these sums are those of all shares, and no less than any look saw. The book, its
//! shares and its name's type parameter are made and ended inside one function that is generic in the name,
//! as with the ledgers of std.
#![tactic(auto)]

mod amounts;
mod book;
mod look;
mod run_brand;
mod share;
mod sums;
mod tokens;

pub use book::{Blank, Book};
pub use look::Look;
pub use run_brand::RunBrand;
pub use share::Share;
