//! Bytes as text, each run of equal bytes as the byte and its count.
#![tactic(auto)]

pub mod laws;
mod lone;
mod print;
mod run;
mod table;

pub use lone::{append_lone, lone_bytes};
pub use print::{append_runs, print_runs};
pub use run::{append_run, run_length};
