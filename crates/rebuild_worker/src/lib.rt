//! The copying loop of a rebuild: page after page of the frozen layers goes from the source to the replica that is rebuilt.
#![tactic(auto)]

mod copy;
mod frames;
pub mod laws;
mod rooms;
mod steps;

pub use copy::{Copied, copy_all};
pub use frames::put_number;
pub use steps::{Carried, CopyNext, CopyOut, CopyPut, CopySide, CopySteps};
pub use vol_units::{LayerName, PageRef};
