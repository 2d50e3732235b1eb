//! What the program meets outside: where its input comes from and where its output goes, each an object
//! that counts its own faults and may tell what it holds; how a source is read whole, and how bytes go to
//! a sink piece by piece.
#![tactic(auto)]

mod ends;
mod error;
mod gate;
mod input;
mod line;
mod output;
mod sink;
mod source;
mod taken_back;
mod wiring;

pub use ends::Ends;
pub use error::{Failed, Outer, OuterError};
pub use gate::{Gate, Point};
pub use input::read_whole;
pub use line::Line;
pub use output::{PIECE, pass_on, write_all};
pub use sink::Sink;
pub use source::Source;
pub use taken_back::{BlankRecord, LineRecord, TakenBack};
pub use wiring::{Wiring, take_back_all};
