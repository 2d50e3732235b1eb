//! Where replicas are saved: shelves of files, an object of the outside that counts its own faults and may tell what
//! it holds.
#![tactic(auto)]

mod shelves;

pub use outer_traits::{Outer, OuterError};
pub use shelves::Shelves;
