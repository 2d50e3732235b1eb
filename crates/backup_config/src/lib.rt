//! The cfgs of a backup and of its volume, as JSON both ways, and what a backup lists.
#![tactic(auto)]

mod backup_cfg;
mod error;
mod list;
mod members;
mod volume_cfg;

pub use backup_cfg::{BackupCfg, LONGEST_CFG};
pub use backup_units::Checksum;
pub use error::{CfgError, CfgMember};
pub use list::{BackupList, ListedBlock};
pub use vol_units::{PlainName, TimeText, VolumeSize};
pub use volume_cfg::VolumeCfg;
