//! One byte for each block of a volume: which layer has the block, as far as that is known.
#![tactic(auto)]

mod map;
pub mod rows;

pub use map::LocationMap;
pub use vol_units::BlockRange;
