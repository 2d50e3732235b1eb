//! The digest of bytes: the heads of replicas are told by it, and blocks of backups are named by it.
#![tactic(auto)]

mod digest;
mod told;

pub use digest::Digest;
