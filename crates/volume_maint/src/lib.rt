//! The steps of calls on the whole volume, of the maintenance turn, and of folding.
#![tactic(auto)]

mod barrier;
mod fold;
mod places;
mod refusal;
mod turn;
mod whole;
mod whole_end;

pub use fold::{fold_next, fold_page, fold_wanted};
pub use open_calls::{FoldOrDrop, LayerName, SnapName, WholeOp};
pub use range_turns::{MayStart, TicketNumber};
pub use step_answers::{AdmitWhole, NextPart};
pub use turn::{abandon, admit_maint, end_maint, enrol_maint, withdraw_maint};
pub use volume_core::{Command, Mode, NotThis, Refusal, Reply, World};
pub use whole::{admit_whole, enrol_whole, part, withdraw_whole};
pub use whole_end::{ack_whole, complete_whole};
