//! The law of a generated load that was printed: over lines of which none fails, its summary is a function of its numbers.
#![tactic(auto)]

pub mod laws;
