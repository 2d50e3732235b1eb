//! A lock whose holders do one step each on a state that keeps a journal, and seats that know what they saw of it.
#![tactic(auto)]

mod desk;
mod guard;
mod kept;
mod plays;
mod seats;
mod turns;
mod views;
mod waiters;

pub use guard::Guard;
pub use kept::Kept;
pub use seats::{Desk, Seat};
pub use views::{Known, Stage, Start, View};
