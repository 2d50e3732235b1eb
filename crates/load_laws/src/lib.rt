//! The law of a generated load: whichever way its streams come one between the other, a run over lines of which none fails
//! has one result.
#![tactic(auto)]

pub mod laws;
