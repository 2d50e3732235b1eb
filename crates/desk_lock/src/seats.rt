//! The desk and its seats.
ghost use Rattle.std.specs.Prelude.{◌≡◌, ◌^◌, ◌<◌, true};
ghost use Rattle.desk_lock.specs.Rule.{is_live, number_in, made_in};

use crate::kept::Kept;
use crate::plays::InTurn;
use crate::views::{Start, View};
use crate::waiters::Waiters;
use atomic_table::Table;
use std::alloc::Global;

/// A seat of the table under a desk. It has no bytes.
pub(crate) type Pass<S> = atomic_table::Seat<Option<S>, View<S>>;

/// The lock, with the state on it while nobody's turn is on. Threads share it by reference.
#[derive(Drop)]
pub struct Desk<S: Kept> {
    pub(crate) table: Table<Option<S>, View<S>, Start<S>, InTurn, Global>,
    pub(crate) waiters: Waiters,
    ghost sized: { (table.shared.table_id.words ≡ 3) × (table.shared.table_id.slots ≡ 1) },
    ghost few: { table.shared.key.seats < 2 ^ 64 },
}

/// The right of one thread to the turns of one stream, and what it knows. A seat that is dropped can no more be joined,
/// so its desk cannot be closed.
#[derive(Drop)]
pub struct Seat<S> {
    pub(crate) pass: Pass<S>,
    pub(crate) number: Option<u64>,
    pub(crate) made: u64,
    pub ghost live: { is_live pass.me.0 ≡ true },
    pub ghost numbered: { number_in pass.me.0 ≡ number },
    pub ghost counted: { made_in pass.me.0 ≡ made },
}
