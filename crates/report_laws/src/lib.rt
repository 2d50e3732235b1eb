//! A report tells its opening and its journal: the laws that it has one of each, and which entries it is of.
#![tactic(auto)]

mod known;
pub mod laws;

pub use known::{know_entry, know_journal};
