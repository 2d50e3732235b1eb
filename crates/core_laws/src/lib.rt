//! Lists of steps of a World, taken in any order, and the law of all of them.
#![tactic(auto)]

mod backup_step;
mod guards;
mod maint_guards;
mod maint_step;
mod rebuild_step;
mod run;
mod step;
mod take;
mod take_backup;
mod take_maint;
mod take_rebuild;

pub use backup_step::BackupStep;
pub use maint_step::MaintStep;
pub use rebuild_step::RebuildStep;
pub use run::run_steps;
pub use step::Step;
pub use volume_core::{
    Bytes, Call, Command, Entry, Mode, Refusal, Reply, TicketNumber, VolumeSize, World,
};
pub use volume_maint::{FoldOrDrop, LayerName, SnapName, WholeOp};
pub use volume_rebuild::PageRef;
