//! The blocks of backups on a target, each under the name of its checksum.
#![tactic(auto)]

mod error;
mod get;
mod put;

pub use backup_units::Checksum;
pub use error::{GetError, StoreError};
pub use get::get_block;
pub use put::{Put, put_block};
