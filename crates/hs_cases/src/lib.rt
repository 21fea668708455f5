//! Texts of cases: the programs of cases read them, and compare what the libraries answer with what the text says.
#![tactic(auto)]

mod case;
mod files;
mod text;

pub use case::{Case, cases};
pub use files::{File, listing_of, words_of};
pub use text::{between, bytes_of, option, parted, push_bytes, without_options};
