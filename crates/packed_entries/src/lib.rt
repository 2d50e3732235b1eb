//! The entries of a run, each in a few bytes: what calls wrote and what reads gave is packed.
#![tactic(auto)]

mod entries;
mod plain;
mod slot;
mod view;

pub use entries::PackedEntries;
pub use packed_bytes::PackedList;
pub use view::{AnswerView, CallView, EntryView, ListRuns, ListView, ReplyView};
