//! The core of a volume: a World of several replicas, whose every step keeps its journal one legal history.
#![tactic(auto)]

mod admit;
mod answer_now;
mod apply;
mod end;
mod enrol;
mod fault;
mod give_up;
mod open;
mod places;
mod turn;
mod world;

pub use journal_book::{
    Bytes, Call, Command, Entry, EntryView, Journal, Mode, ModeTable, Opening, Refusal, Reply,
    Shown, TakenNames,
};
pub use open_calls::{Buffer, OpenCall, Part, Parts};
pub use open_rebuild::Rebuilding;
pub use range_turns::{BlockRange, Kind, TicketNumber, Turns};
pub use replica_node::{Blocks, ReplicaNode, VolumeSize};
pub use step_answers::{Admit, Enrolled, Job, NotThis};
pub use turn::{end_first, free_turn_at, is_idle, take_command};
pub use world::{EndedRebuild, World};
