//! How a backup is made: the pages of a snapshot's copy are put as blocks, and cfgs tell of them.
#![tactic(auto)]

mod backup;
mod cfgs;
mod error;
mod gather;
mod giver;
mod keep;

pub use backup::make;
pub use backup_config::BackupList;
pub use backup_units::Checksum;
pub use cfgs::has_cfg;
pub use error::MakeError;
pub use giver::{GiveError, PageGiver, Pages};
