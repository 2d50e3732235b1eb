//! Sessions whose clients send frames, side by side on one World: a worker for each, in a thread of its own.
#![tactic(auto)]

mod answer;
mod coming;
mod serve;
mod serving;
mod table;
mod task;
mod tasks;

pub use door_traits::Client;
pub use run_report::{EndedSession, SessionEnd};
pub use serve::MOST_CALLS;
pub use serving::{ServedSessions, serve_sessions};
