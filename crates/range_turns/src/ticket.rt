ghost use Rattle.std.specs.Prelude.{◌≡◌, ◌↔◌, IsTrue};
ghost use Rattle.range_turns.specs.Order.{Conflict};

use std::marker::Model;
use vol_units::BlockRange;

/// What a call does with its blocks.
#[derive(Clone, Copy, Debug, PartialEq, Eq)]
pub enum Kind {
    Read,
    Write,
    /// The call is for the whole volume, whatever its range.
    Whole,
}

/// What a ticket is known by until it ends. A later ticket may get the same.
#[derive(Clone, Copy, Debug, PartialEq, Eq)]
pub struct TicketNumber {
    pub(crate) number: u64,
}

impl Model for TicketNumber {
    ghost use Rattle.std.specs.Prelude.{ℕ};

    ghost Value = { ℕ };

    ghost view = { λ n. n.number };

    ghost inverse = { λ number. record { number = number } };
}

impl TicketNumber {
    /// That number, whether a ticket has it or not: a list of steps is made before its tickets are.
    pub fn of(number: u64) -> TicketNumber
        ensures { result ≡ number }
    {
        TicketNumber { number }
    }
}

/// A call that was enrolled and has not ended.
#[derive(Clone, Copy, Debug, PartialEq, Eq)]
pub struct Ticket {
    pub number: TicketNumber,
    /// The blocks in which the call's bytes lie.
    pub range: BlockRange,
    pub kind: Kind,
    pub started: bool,
}

impl Ticket {
    /// Whether the later of the two has to wait until the earlier has ended.
    pub fn conflicts(&self, other: &Ticket) -> bool
        ensures { IsTrue result ↔ Conflict self.now other.now }
    {
        match (self.kind, other.kind) {
            (Kind::Whole, _) | (_, Kind::Whole) => true,
            (Kind::Read, Kind::Read) => false,
            (Kind::Read | Kind::Write, Kind::Write) | (Kind::Write, Kind::Read) => {
                self.range.overlaps(other.range)
            }
        }
    }
}
