//! Lists of bytes one after another, each as runs where these are shorter; and the text of a list.
#![tactic(auto)]

mod count;
mod each_run;
pub mod laws;
mod list;
mod parts;
mod plain_list;
mod print;
mod put;
mod slice_runs;

pub use each_run::EachRun;
pub use list::{PackedList, Place};
pub use plain_list::PlainList;
pub use print::print_packed;
pub use put::{put_packed, put_plain, put_shorter};
use segment_list::Segments;
pub use slice_runs::SliceRuns;

/// What the lists take, in chunks of a MiB that never move.
pub type Data = Segments<u8, 1_048_576>;
