//! One stream's worker of commands: it takes the stream's commands one after another, carries what is done on the
//! replicas to each of them, has a failed replica rebuilt from another, page by page, while clients go on, and answers.
#![tactic(auto)]

mod add;
mod backup;
mod barrier;
mod carrier;
mod commands;
mod control;
mod copier;
mod frames;
mod giver;
mod line;
mod parts;
mod purge;
mod rooms;
mod worker;

pub use client_worker::{Channel, Line};
pub use control::Served;
pub use stream_steps::{BackupSteps, Command};
pub use target_traits::Target;
pub use vol_units::{PlainName, TimeText};
pub use worker::ControlWorker;
