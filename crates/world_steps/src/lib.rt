//! A stream's steps on a World that someone holds for it: each takes it, calls the core, and puts it back.
#![tactic(auto)]

mod adds;
mod backup;
mod backups;
mod commands;
mod frames;
mod gates;
mod in_turn;
mod passing;
mod rebuild;
mod steps;

pub use gates::{NoGate, SharedGate};
pub use steps::Steps;
