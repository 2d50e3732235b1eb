//! The lines that a run prints, each appended whole to a buffer of the caller's.
#![tactic(auto)]

mod end_lines;
mod entry_line;
mod gathered;
mod list;
mod mark_line;
mod opening_line;
mod reason;
mod reply_frame;
mod reply_line;
pub mod rows;
mod session_line;
mod summary_lines;
mod words;

pub use end_lines::{print_chain, print_head, print_mode};
pub use entry_line::print_entry;
pub use opening_line::print_opening;
pub use reason::Reason;
pub use reply_frame::digest_reply;
pub use reply_line::print_reply;
pub use session_line::{EndedSession, SessionEnd, print_session};
pub use summary_lines::{print_control, print_disk, print_modes, print_stream};
