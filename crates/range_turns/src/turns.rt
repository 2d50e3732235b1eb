ghost use Rattle.std.specs.Prelude.{◌≡◌, ◌==◌, ◌+◌, ◌<◌, ◌∷◌, ◌++◌, [], length, false, max, remove, IfOk, OnOk, OnErr, MatchOption};
ghost use Rattle.range_turns.specs.Order.{ticket_at, with_started, IsFresh, StandsAt, IsEnrolled, IsClear, IsFirstInWay, AreInOrder, Starts, Goes};
ghost use Rattle.range_turns.specs.Answers.{MayStartNow};

use crate::ticket::{Kind, Ticket, TicketNumber};
use std::alloc::{AllocError, Global};
use std::marker::Model;
use vol_units::BlockRange;

/// Whether a ticket may start.
#[derive(Clone, Copy, Debug, PartialEq, Eq)]
pub enum MayStart {
    Yes,
    /// It has to wait for that one, the first in its way.
    After(TicketNumber),
}

/// The tickets that have not ended, in the order of enrolment. Contracts see the list, and for how many tickets more
/// there is room.
#[derive(Debug, Drop)]
pub struct Turns {
    tickets: Vec<Ticket>,
    spare: u64,
}

impl Model for Turns {
    ghost use Rattle.std.specs.Prelude.{vec_len, vec_capacity, ◌+◌, ◌≤◌};
    ghost use Rattle.range_turns.specs.Order.{Roll, AreInOrder};

    ghost Value = { Roll };

    ghost view = { λ t. record { tickets = t.tickets.items; spare = t.spare } };

    ghost invariant = { λ t. AreInOrder t.tickets.items × (vec_len t.tickets + t.spare ≤ vec_capacity t.tickets) };
}

impl Turns {
    /// No ticket, and no room for one. It takes no memory.
    pub fn new(alloc: Global) -> Turns
        ensures tickets { result.tickets ≡ [] }
        ensures spare { result.spare ≡ 0 }
    {
        Turns {
            tickets: Vec::new(alloc),
            spare: 0,
        }
    }

    /// No ticket, and room for so many.
    pub fn with_room(alloc: Global, room: u64) -> Result<Turns, AllocError>
        ensures tickets { IfOk result (λ turns. turns.tickets ≡ []) }
        ensures spare { IfOk result (λ turns. turns.spare ≡ room) }
    {
        let mut turns = Turns::new(alloc);
        turns.reserve(room)?;
        Ok(turns)
    }

    /// Makes room for at least so many tickets more.
    pub fn reserve(&mut self, additional: u64) -> Result<(), AllocError>
        ensures ok { OnOk result (self.new.spare ≡ max self.old.spare additional) }
        ensures same { self.new ≡ record self.old { spare = self.new.spare } }
        ensures err { OnErr result (self.new ≡ self.old) }
    {
        if self.spare < additional {
            self.tickets.reserve(additional as usize)?;
            self.spare = additional;
        }
        Ok(())
    }

    /// How many tickets can be enrolled before room is made again.
    pub fn spare(&self) -> u64
        ensures { result ≡ self.now.spare }
    {
        self.spare
    }

    /// How many tickets there are.
    pub fn len(&self) -> usize
        ensures { result ≡ length self.now.tickets }
    {
        self.tickets.len()
    }

    pub fn is_empty(&self) -> bool
        ensures { result ≡ (length self.now.tickets == 0) }
    {
        self.tickets.is_empty()
    }

    /// Where the ticket stands, if it has not ended.
    pub fn place(&self, ticket: TicketNumber) -> Option<usize>
        ensures found { MatchOption result (IsFresh self.now.tickets ticket) (StandsAt self.now.tickets ticket) }

        // What holds of the tickets at every moment.
        ensures order { AreInOrder self.now.tickets }
    {
        self.tickets.iter().position(|t| t.number == ticket)
    }

    /// The ticket at a place.
    pub fn ticket(&self, place: usize) -> Ticket
        requires { place < length self.now.tickets }
        ensures { result ≡ ticket_at self.now.tickets place }
    {
        self.tickets[place]
    }

    /// Where the first ticket stands that is in the way of the one at the place.
    pub fn in_way(&self, place: usize) -> Option<usize>
        requires { place < length self.now.tickets }
        ensures { MatchOption result (IsClear self.now.tickets place) (IsFirstInWay self.now.tickets place) }
    {
        let ticket = self.ticket(place);
        self.tickets[..place]
            .iter()
            .position(|earlier| earlier.conflicts(&ticket))
    }

    /// Whether the ticket may start, and else the first one in its way, started or not.
    pub fn may_start(&self, ticket: TicketNumber) -> MayStart
        requires { IsEnrolled self.now.tickets ticket }
        ensures { MayStartNow self.now.tickets ticket result }
    {
        match self.in_way(self.place_of(ticket)) {
            None => MayStart::Yes,
            Some(first) => MayStart::After(self.tickets[first].number),
        }
    }

    /// Puts a ticket behind all others, in room that was made before. It takes no memory.
    pub fn enrol(&mut self, range: BlockRange, kind: Kind) -> TicketNumber
        requires { 0 < self.old.spare }
        ensures tickets { self.new.tickets ≡ self.old.tickets
            ++ record { number = result; range = range; kind = kind; started = false } ∷ [] }
        ensures fresh { IsFresh self.old.tickets result }
        ensures place { StandsAt self.new.tickets result (length self.old.tickets) }
        ensures spare { self.new.spare + 1 ≡ self.old.spare }
    {
        let number = self.fresh();
        let ticket = Ticket {
            number,
            range,
            kind,
            started: false,
        };
        self.tickets.push(ticket).unwrap();
        self.spare -= 1;
        number
    }

    /// The ticket, which may, starts.
    pub fn start(&mut self, ticket: TicketNumber)
        requires { MayStartNow self.old.tickets ticket MayStart.Yes }
        ensures tickets { Starts self.old.tickets self.new.tickets ticket }
        ensures spare { self.new.spare ≡ self.old.spare }
    {
        self.start_at(self.place_of(ticket));
    }

    /// The ticket at the place, which may, starts.
    pub fn start_at(&mut self, place: usize)
        requires within { place < length self.old.tickets }
        requires clear { IsClear self.old.tickets place }
        ensures tickets { self.new.tickets ≡ with_started self.old.tickets place }
        ensures spare { self.new.spare ≡ self.old.spare }
    {
        self.tickets[place].started = true;
    }

    /// The ticket goes: its call has ended.
    pub fn end(&mut self, ticket: TicketNumber)
        requires { IsEnrolled self.old.tickets ticket }
        ensures tickets { Goes self.old.tickets self.new.tickets ticket }
        ensures spare { self.new.spare ≡ self.old.spare }
    {
        self.end_at(self.place_of(ticket));
    }

    /// The ticket goes: its call is not made.
    pub fn withdraw(&mut self, ticket: TicketNumber)
        requires { IsEnrolled self.old.tickets ticket }
        ensures tickets { Goes self.old.tickets self.new.tickets ticket }
        ensures spare { self.new.spare ≡ self.old.spare }
    {
        self.end(ticket);
    }

    /// The ticket at the place goes: its call has ended, or is not made.
    pub fn end_at(&mut self, place: usize)
        requires { place < length self.old.tickets }
        ensures tickets { self.new.tickets ≡ remove self.old.tickets place }
        ensures spare { self.new.spare ≡ self.old.spare }
    {
        self.tickets.remove(place);
    }

    /// Where a ticket stands that has not ended.
    fn place_of(&self, ticket: TicketNumber) -> usize
        requires { IsEnrolled self.now.tickets ticket }
        ensures { StandsAt self.now.tickets ticket result }
    {
        self.place(ticket).unwrap()
    }

    /// The least number that no ticket has, so that numbers stay small.
    fn fresh(&self) -> TicketNumber
        ensures { IsFresh self.now.tickets result }
    {
        let most = self.len() as u64;
        for number in 0..most {
            let number = TicketNumber { number };
            if self.place(number).is_none() {
                return number;
            }
        }
        TicketNumber { number: most }
    }
}
