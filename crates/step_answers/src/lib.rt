//! What a step of a volume is asked and what it answers: the words that a stream's worker and the core have in common.
#![tactic(auto)]

mod answers;
mod buffer;
mod parts;
mod whole_op;

pub use answers::{Admit, AdmitWhole, Enrolled, Job, NextPart, NotThis};
pub use buffer::Buffer;
pub use parts::{Part, Parts};
pub use range_turns::{BlockRange, MayStart, TicketNumber};
pub use volume_model::{Command, FoldOrDrop, LayerName, Mode, Refusal, Sequence, SnapName};
pub use whole_op::WholeOp;
