//! A script: the one input of a run, read whole, or refused at the place of its first fault.
#![tactic(auto)]

mod error;
mod fed_reader;
mod frames;
mod generated;
mod heads;
pub mod laws;
mod line;
pub mod rows;
mod script;
mod stream;
mod streams;
mod what;

pub use error::ScriptError;
pub use frame_stream::{Asked, Bytes, Call, Frame, Head, of_frame};
pub use frames::{Frames, FramesLeft};
pub use generated::make_script;
pub use heads::{Heads, HeadsLeft};
pub use script::{Script, Stream, read_script};
pub use script_head::limits::{MOST_CALLS, MOST_INPUT};
pub use script_head::{Command, LinePlan, Member, Sequence, TimeText, plan_of};
pub use vol_units::{PlainName, VolumeSize};
pub use what::What;
