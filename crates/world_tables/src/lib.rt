//! One list with each kind of step, taken by a World.
#![tactic(auto)]

#[cfg(test)]
mod each_kind;
