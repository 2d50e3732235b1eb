//! Writes the report of a run to a sink, in large pieces as it is made; or a generated load's summary.
#![tactic(auto)]

mod digests;
mod end;
mod heads;
mod report;
mod summary;

pub use report::{write_report, write_sessions};
pub use summary::write_summary;
