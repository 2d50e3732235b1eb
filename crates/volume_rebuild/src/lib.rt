//! The steps of a rebuild past its barrier: pages are copied, and the target is promoted.
#![tactic(auto)]

mod copying;
pub mod laws;
mod promotion;

pub use copying::{copy_in, copy_next, copy_out};
pub use promotion::promote;
pub use range_turns::TicketNumber;
pub use replica_node::Page;
pub use vol_units::PageRef;
pub use volume_core::{NotThis, World};
