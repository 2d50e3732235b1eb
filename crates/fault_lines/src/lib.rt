//! Lines to replicas that fail at the carries that a script plans, and the wiring that they come from.
#![tactic(auto)]

mod carry_plan;
mod plan_line;
mod plan_wiring;

pub use carry_plan::CarryPlan;
pub use plan_line::PlanLine;
pub use plan_wiring::PlanWiring;
