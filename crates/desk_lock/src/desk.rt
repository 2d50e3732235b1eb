//! What a desk is for.
ghost use Rattle.std.specs.Prelude.{◌≡◌, ℕ, ◌<◌, ◌≤◌, max, [], ◌∷◌, length, Some, None, IsSome, IfOk};
ghost use Rattle.desk_lock.specs.declared.views.Stage.TheVariants.{Idle};
ghost use Rattle.desk_lock.specs.Account.{IsSilent};
ghost use Rattle.desk_lock.specs.Known.{known_with, one_more, keeping, Fits, ReachesSeen};
ghost use Rattle.desk_lock.specs.Seats.{known, number_of, last_of, made_of, told_of, seats_of, IsSeatOf, IsInTurn, HasState};
ghost use Rattle.desk_lock.specs.Seats.{HasAll};

use crate::guard::Guard;
use crate::kept::Kept;
use crate::plays::{Cut, Glue, Learn, Recall};
use crate::seats::{Desk, Seat};
use crate::turns::{LENGTH, SERVED};
use crate::views::Start;
use crate::waiters::Waiters;
use atomic_table::Table;
use std::alloc::{AllocError, Global};
use std::snapshot::Snapshot;
use std::sync::Wait;

impl<S: Kept> Desk<S> {
    /// A desk with this state, and its first seat, which has no number. At most `seats` more are split off it.
    pub fn new(alloc: Global, state: S, seats: u64) -> Result<(Desk<S>, Seat<S>), AllocError>
    where
        S: Drop,
        requires sound { S.account.sound state }
        requires blank { (S.account.journal state ≡ []) × ((n : ℕ) → S.account.running state n ≡ []) }
        requires seats { (1 ≤ seats) × (seats ≤ S.account.streams state) }
        ensures desk { IfOk result (λ r. (seats_of r.0 ≡ seats) × IsSeatOf r.0 r.1) }
        ensures seat { IfOk result (λ r. known r.1 ≡ known_with None state Idle 0 []) }
        ensures told { IfOk result (λ r. told_of r.1 ≡ 0) }
    {
        let start = Start {
            state: Snapshot::of(&state),
            seats,
        };
        let slots = one(alloc, Some(state))?;
        let (table, pass) = match Table::new(alloc, &[0, 0, 0], slots, &start) {
            Ok(made) => made,
            Err(_) => return Err(AllocError),
        };
        Ok((
            Desk {
                table,
                waiters: Waiters::new(),
            },
            Seat {
                pass,
                number: None,
                made: 0,
            },
        ))
    }

    /// Splits the next seat off the first, which has seen as much, and of which nothing is there.
    pub fn split(&self, seat: &mut Seat<S>) -> Seat<S>
        requires seat { IsSeatOf self.now seat.old × (number_of seat.old ≡ None) }
        requires room { made_of seat.old < seats_of self.now }
        ensures seats { IsSeatOf self.now seat.new × IsSeatOf self.now result }
        ensures first { known seat.new ≡ one_more (known seat.old) }
        ensures new { known result ≡ known_with (Some (made_of seat.old)) (last_of seat.old) Idle 0 [] }
        ensures silent { IsSilent S.account (made_of seat.old) (last_of seat.old) }
        ensures told { (told_of seat.new ≡ told_of seat.old) × (told_of result ≡ 0) }
    {
        let number = seat.made;
        self.table.shared.load::<Recall>(&mut seat.pass, SERVED);
        seat.made += 1;
        let pass = self.table.shared.split_seat::<Cut>(&mut seat.pass);
        Seat {
            pass,
            number: Some(number),
            made: 0,
        }
    }

    /// The first seat keeps the other's number, what it saw, and the greater of the lengths that the two were told.
    pub fn join(&self, seat: &mut Seat<S>, other: Seat<S>)
        requires seat { IsSeatOf self.now seat.old × (number_of seat.old ≡ None) }
        requires other { IsSeatOf self.now other × IsSome (number_of other) }
        ensures seat { IsSeatOf self.now seat.new }
        ensures kept { (n : ℕ) → number_of other ≡ Some n
            → known seat.new ≡ keeping (known seat.old) n (last_of other) }
        ensures told { told_of seat.new ≡ max (told_of seat.old) (told_of other) }
    {
        let Seat {
            pass,
            number: _,
            made: _,
        } = other;
        self.table.shared.join_seat::<Glue>(&mut seat.pass, pass);
    }

    /// The state, once each seat that was split off was joined.
    pub fn close(self, seat: Seat<S>) -> S
        requires seat { IsSeatOf self seat × (number_of seat ≡ None) }
        requires all { HasAll seat }
        ensures state { Fits S.account result (known seat) }
        ensures told { told_of seat ≤ length (S.account.journal result) }
    {
        let Seat {
            pass,
            number: _,
            made: _,
        } = seat;
        let Desk { table, .. } = self;
        let mut closed = table.close_with(pass);
        let state = closed.take(0);
        closed.free();
        state.unwrap()
    }

    /// Waits for the seat's turn, and takes the state.
    pub fn enter<'d, 's, R: Wait>(&'d self, rt: &R, seat: &'s mut Seat<S>) -> Guard<'d, 's, S>
        requires { IsSeatOf self.now seat.old }
        ensures same_seat { result.seat.ghost_name ≡ seat.entry.ghost_name }
        ensures state { Fits S.account result.state (known seat.old) }
        ensures told { told_of seat.old ≤ length (S.account.journal result.state) }
        ensures turn { IsInTurn seat.old result.state result.seat.now × HasState result.desk.now result.seat.now }
    {
        let state = take_in(self, rt, seat);
        Guard {
            seat,
            state,
            desk: self,
        }
    }

    /// How long the journal was that was last put back, also while another has the state.
    pub fn seen_now(&self, seat: &mut Seat<S>) -> u64
        requires { IsSeatOf self.now seat.old }
        ensures seat { IsSeatOf self.now seat.new × (known seat.new ≡ known seat.old) }
        ensures told { (told_of seat.new ≡ result) × (told_of seat.old ≤ result) }
        ensures seen { ReachesSeen S.account result (known seat.old) }
    {
        self.table.shared.load::<Learn>(&mut seat.pass, LENGTH)
    }
}

impl<S> Seat<S> {
    /// Which of the seats it is that were split off the first, from 0. None for the first.
    pub fn number(&self) -> Option<u64>
        ensures { result ≡ number_of self.now }
    {
        self.number
    }
}

fn one<T: Drop>(alloc: Global, x: T) -> Result<Vec<T>, AllocError>
    ensures { IfOk result (λ v. v.items ≡ x ∷ []) }
{
    let mut all = Vec::new(alloc);
    all.push(x)?;
    Ok(all)
}

fn take_in<S: Kept, R: Wait>(desk: &Desk<S>, rt: &R, seat: &mut Seat<S>) -> S
    requires { IsSeatOf desk.now seat.old }
    ensures state { Fits S.account result (known seat.old) }
    ensures told { told_of seat.old ≤ length (S.account.journal result) }
    ensures turn { IsInTurn seat.old result seat.new × HasState desk.now seat.new }
{
    desk.take(rt, &mut seat.pass)
}
