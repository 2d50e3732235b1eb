//! A read or a write is enrolled.

ghost use Rattle.std.specs.Prelude.{◌≡◌, ◌<◌, ◌≤◌, ◌^◌, length, false, Some, IfOk, OnErr};
ghost use Rattle.volume_model.specs.PlainStep.{longest_call, refusal_of};
ghost use Rattle.range_turns.specs.Order.{IsFresh};
ghost use Rattle.open_calls.specs.Clients.{IsIdle};
ghost use Rattle.open_calls.specs.Maint.{HasNoCommand};
ghost use Rattle.packed_entries.specs.Plain.{data_in};
ghost use Rattle.volume_core.specs.Data.{owed_data};
ghost use Rattle.volume_core.specs.State.{state_of, modes_in, told_of};
ghost use Rattle.volume_core.specs.Steps.{with_data, enrolled};
ghost use Rattle.volume_core.specs.Sound.{IsSound};
ghost use Rattle.step_answers.specs.Asked.{IsOnRange};
ghost use Rattle.volume_core.specs.Answers.{EnrolsAs};
ghost use Rattle.volume_core.specs.Streams.{MayGo, Stays, SeesEnrolled};

use crate::world::World;
use journal_book::{Bytes, Call, Refusal, Reply};
use open_calls::OpenCall;
use range_turns::{BlockRange, Kind, TicketNumber};
use std::alloc::{AllocError, Global};
use step_answers::Enrolled;
use vol_units::place_within;

impl World {
    /// Enrols a read or a write of a stream that has no call open, behind all others. One whose range is not good is
    /// answered at once.
    pub fn enrol(&mut self, alloc: Global, stream: u8, call: &Call) -> Result<Enrolled, AllocError>
        requires sound { IsSound (state_of self.old) }
        requires stream { stream < length self.old.indices.items }
        requires idle { IsIdle stream self.old.calls.items }
        requires free { HasNoCommand stream self.old.commands.items }
        requires range { IsOnRange call.now }
        ensures sound { IsSound (state_of self.new) }
        ensures ok { IfOk result (λ e. EnrolsAs (state_of self.old) stream call.now e (state_of self.new)) }
        ensures err { OnErr result (state_of self.new ≡ state_of self.old) }
        ensures may { MayGo stream (state_of self.old) (state_of self.new) }
        ensures sees { IfOk result (λ e. SeesEnrolled stream call.now e (state_of self.old) (state_of self.new)) }
        ensures stays { OnErr result (Stays stream (state_of self.old) (state_of self.new)) }
    {
        match call {
            Call::Read { offset, length } => self.enrol_read(alloc, stream, *offset, *length),
            Call::Write { offset, bytes } => {
                let bytes = bytes.clone()?;
                self.enrol_write(alloc, stream, *offset, bytes)
            }
            Call::Ping | Call::Other(_) | Call::Command(_) => unreachable!(),
        }
    }

    fn enrol_read(
        &mut self,
        alloc: Global,
        stream: u8,
        offset: i64,
        count: u32,
    ) -> Result<Enrolled, AllocError>
        requires sound { IsSound (state_of self.old) }
        requires stream { stream < length self.old.indices.items }
        requires idle { IsIdle stream self.old.calls.items }
        requires free { HasNoCommand stream self.old.commands.items }
        requires short { count ≤ longest_call }
        ensures sound { IsSound (state_of self.new) }
        ensures ok { IfOk result (λ e.
            EnrolsAs (state_of self.old) stream (Call.Read offset count) e (state_of self.new)) }
        ensures err { OnErr result (state_of self.new ≡ state_of self.old) }
        ensures may { MayGo stream (state_of self.old) (state_of self.new) }
        ensures sees { IfOk result (λ e.
            SeesEnrolled stream (Call.Read offset count) e (state_of self.old) (state_of self.new)) }
        ensures stays { OnErr result (Stays stream (state_of self.old) (state_of self.new)) }
    {
        let size = self.size.bytes() as usize;
        let Some(at) = place_within(offset, count as usize, size) else {
            return self.refuse_range(
                stream,
                Call::Read {
                    offset,
                    length: count,
                },
                0,
            );
        };
        let range = BlockRange::around(self.size, offset, count).unwrap();
        let saw = self.journal.len();
        let call = OpenCall::new(alloc, stream, saw, at as u32, count, Bytes::new());
        let number = self.put_behind(range, Kind::Read, call)?;
        Ok(Enrolled::Ticket(number))
    }

    fn enrol_write(
        &mut self,
        alloc: Global,
        stream: u8,
        offset: i64,
        bytes: Bytes,
    ) -> Result<Enrolled, AllocError>
        requires sound { IsSound (state_of self.old) }
        requires stream { stream < length self.old.indices.items }
        requires idle { IsIdle stream self.old.calls.items }
        requires free { HasNoCommand stream self.old.commands.items }
        requires short { length bytes ≤ longest_call }
        ensures sound { IsSound (state_of self.new) }
        ensures ok { IfOk result (λ e.
            EnrolsAs (state_of self.old) stream (Call.Write offset bytes) e (state_of self.new)) }
        ensures err { OnErr result (state_of self.new ≡ state_of self.old) }
        ensures may { MayGo stream (state_of self.old) (state_of self.new) }
        ensures sees { IfOk result (λ e.
            SeesEnrolled stream (Call.Write offset bytes) e (state_of self.old) (state_of self.new)) }
        ensures stays { OnErr result (Stays stream (state_of self.old) (state_of self.new)) }
    {
        let size = self.size.bytes() as usize;
        let count = bytes.len();
        let Some(at) = place_within(offset, count, size) else {
            return self.refuse_range(stream, Call::Write { offset, bytes }, count as u32);
        };
        let range = BlockRange::around(self.size, offset, count as u32).unwrap();
        let saw = self.journal.len();
        let call = OpenCall::new(alloc, stream, saw, at as u32, count as u32, bytes);
        let number = self.put_behind(range, Kind::Write, call)?;
        Ok(Enrolled::Ticket(number))
    }

    /// Puts a call behind all others, with place in the journal for the bytes that it has.
    fn put_behind(
        &mut self,
        range: BlockRange,
        kind: Kind,
        call: OpenCall,
    ) -> Result<TicketNumber, AllocError>
        requires few { length call.bytes < 2 ^ 32 }
        requires owed { owed_data self.old.calls.items ≤ self.old.journal.spare_data }
        ensures fresh { IfOk result (IsFresh self.old.turns.tickets) }
        ensures ok { IfOk result (λ number. state_of self.new
            ≡ enrolled (with_data (state_of self.old) (length call.bytes))
            (record { number = number; range = range; kind = kind; started = false }) call) }
        ensures err { OnErr result (state_of self.new ≡ state_of self.old) }
    {
        self.calls.reserve(1)?;
        self.turns.reserve(1)?;
        self.make_data(call.bytes.len() as u32)?;
        let number = self.turns.enrol(range, kind);
        self.calls.push(call).unwrap();
        Ok(number)
    }

    /// Answers a call whose range is not good, and which has so many bytes.
    fn refuse_range(&mut self, stream: u8, call: Call, count: u32) -> Result<Enrolled, AllocError>
        requires sound { IsSound (state_of self.old) }
        requires stream { stream < length self.old.indices.items }
        requires idle { IsIdle stream self.old.calls.items }
        requires free { HasNoCommand stream self.old.commands.items }
        requires refused { refusal_of (modes_in (state_of self.old)) (told_of (state_of self.old)) call
            ≡ Some Refusal.OutOfRange }
        requires range { IsOnRange call }
        requires count { count ≡ length (data_in call (Reply.Refused Refusal.OutOfRange)) }
        ensures sound { IsSound (state_of self.new) }
        ensures ok { IfOk result (λ e. EnrolsAs (state_of self.old) stream call e (state_of self.new)) }
        ensures err { OnErr result (state_of self.new ≡ state_of self.old) }
        ensures may { MayGo stream (state_of self.old) (state_of self.new) }
        ensures sees { IfOk result (λ e.
            SeesEnrolled stream call e (state_of self.old) (state_of self.new)) }
        ensures stays { OnErr result (Stays stream (state_of self.old) (state_of self.new)) }
    {
        let saw = self.journal.len();
        self.make_place_for(count)?;
        let refused = Reply::Refused(Refusal::OutOfRange);
        Ok(Enrolled::OutOfRange(self.push_answer(stream, saw, call, refused)))
    }
}
