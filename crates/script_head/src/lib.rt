//! The first line of a script: a JSON object that says what is to be run.
#![tactic(auto)]

mod error;
mod head;
pub mod laws;
pub mod limits;
mod line_plan;
mod lines;
mod member;
mod members;
mod streams;

pub use error::HeadError;
pub use head::{ScriptHead, StreamHead, read_head};
pub use line_plan::{LinePlan, plan_of};
pub use member::Member;
pub use vol_units::TimeText;
pub use volume_model::{Command, Sequence};
