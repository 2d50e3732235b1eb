//! Where backups are kept: objects by their names, an object of the outside that counts its own faults and may tell what
//! it holds.
#![tactic(auto)]

mod target;

pub use outer_traits::{Outer, OuterError};
pub use target::Target;
