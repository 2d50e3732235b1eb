//! The words of the command line, as `clap` reads them.
#![tactic(auto)]

mod address;
pub mod laws;
mod numbers;
mod program;
pub mod rows;
mod words;

pub use address::Address;
pub use words::{Words, WordsError, Workers, read_words};
