//! The core's steps, as the worker of one stream takes them.
#![tactic(auto)]

mod add;
mod backup;
mod client;
mod command;
mod on_replica;
mod with_source;

pub use add::{AddSteps, Added, AdmitBarrier, NextPage, PageIn, PageOut};
pub use backup::BackupSteps;
pub use backup_make::Pages;
pub use client::ClientSteps;
pub use command::CommandSteps;
pub use on_replica::OnReplica;
pub use sparse_image::{Blocks, Page};
pub use step_answers::{Admit, Enrolled, Job, NotThis, TicketNumber};
pub use vol_units::{BlockRange, LayerName, PageRef};
pub use volume_model::{Call, Command, Mode};
pub use with_source::WithSource;
