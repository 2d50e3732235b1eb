//! Sessions in threads of their own on one desk, and their joined journal judged.
#![tactic(auto)]

pub mod calls;
pub mod desk;
#[cfg(test)]
mod judge;
pub mod sessions;
#[cfg(test)]
mod two_sessions;
