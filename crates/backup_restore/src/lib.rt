//! How a backup is restored: its cfg is read, each listed block is looked at, and only then is any written. And how the
//! backups of a volume are listed.
#![tactic(auto)]

mod blocks;
mod cfg;
mod error;
mod list;
mod names;
mod whole;

pub use backup_config::{BackupCfg, BackupList, Checksum, PlainName};
pub use blocks::restore_blocks;
pub use cfg::read_cfg;
pub use error::{Refusal, RestoreError, StoredObject};
pub use list::list_backups;
pub use whole::restore;
