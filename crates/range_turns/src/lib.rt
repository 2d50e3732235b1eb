//! Tickets on ranges of blocks, in the order of enrolment: a call may start where no earlier one is in its way.
#![tactic(auto)]

mod ticket;
mod turns;

pub use ticket::{Kind, Ticket, TicketNumber};
pub use turns::{MayStart, Turns};
pub use vol_units::BlockRange;
