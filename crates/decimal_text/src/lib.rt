//! Whole numbers as texts of decimal digits, with no sign and no leading zero.
#![tactic(auto)]

mod decimal;

pub use decimal::read_decimal;
