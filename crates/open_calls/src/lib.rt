//! The calls that were enrolled and have not ended, what the replicas owe each, what is done to the whole volume, a part
//! on each replica, and the turn of the commands that do it.
#![tactic(auto)]

mod maint;
mod open_call;
mod reads;
mod spares;
mod whole;

pub use maint::MaintCall;
pub use open_call::OpenCall;
pub use range_turns::{BlockRange, Kind, Ticket, TicketNumber};
pub use reads::{read_into, read_of};
pub use replica_node::{ReplicaNode, Spare};
pub use spares::Spares;
pub use step_answers::{Buffer, Part, Parts, WholeOp};
pub use volume_model::{Bytes, Call, Command, FoldOrDrop, LayerName, Mode, Sequence, SnapName};
pub use whole::{Whole, take_part};
