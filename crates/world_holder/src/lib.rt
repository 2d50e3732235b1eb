//! Who holds a World for a stream: it is taken for a step, and put back after it. It is in one worker's hands, or lies on
//! a desk.
#![tactic(auto)]

mod at_seat;
mod hand;
mod holder;
mod kept;
mod lay;
mod lent_seat;

pub use at_seat::AtSeat;
pub use desk_lock::{Desk, Seat};
pub use hand::Hand;
pub use holder::Holder;
pub use kept::WorldOnDesk;
pub use lay::{lay_down, take_up};
pub use lent_seat::LentSeat;
pub use volume_core::World;
