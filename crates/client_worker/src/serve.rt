//! The calls of a stream are carried to the replicas, one after another.

ghost use Rattle.std.specs.Prelude.{◌≡◌, ◌≢◌, ℕ, ◌+◌, ◌*◌, ◌≤◌, ◌<◌, true, false, [], length, vec_capacity};
ghost use Rattle.std.specs.Prelude.{OnOk, OnErr, IfOk, IfSome, MatchOption};
ghost use Rattle.vol_units.specs.Range.{blocks_around, place_of};
ghost use Rattle.vol_units.specs.declared.size.TheConstants.{BLOCK_BYTES, LARGEST_SIZE};
ghost use Rattle.volume_model.specs.PlainStep.{longest_call};
ghost use Rattle.frame_wire.specs.Spelling.{header_length};
ghost use Rattle.step_answers.specs.Parts.{part_at};
ghost use Rattle.stream_steps.specs.Mine.{OwnCall, IsOwn, with_running};
ghost use Rattle.stream_steps.specs.Steps.{HasNotStarted, HasPlaces};
ghost use Rattle.stream_steps.specs.Seen.{TellsSource};
ghost use Rattle.client_worker.specs.Asking.{IsFirstOwed};
ghost use Rattle.client_worker.specs.Serving.{KeepsOpen};
ghost use Rattle.client_worker.specs.Ends.{EndsOpen, EndsTo, NoneAcked, TakesUp};
ghost use Rattle.client_worker.specs.Rooms.{HoldsWrite, HasReadRoom, BeginsOr, IsOpenRead, ReadsOr};
ghost use Rattle.client_worker.specs.Working.{Stays, StaysHome};

use crate::carrier::Carrier;
use crate::opened::{AfterPart, OpenRead, OpenWrite, WritePart};
use crate::rooms::{Rooms, fill_request};
use frame_wire::HEADER_LENGTH;
use outer_traits::Line;
use range_turns::TicketNumber;
use std::alloc::{AllocError, Global};
use std::sync::Wait;
use step_answers::{Job, Part, Parts};
use stream_steps::{ClientSteps, WithSource};
use vol_units::BlockRange;
use volume_model::Call;

impl<C: ClientSteps + Drop, L: Line + Drop> Carrier<C, L> {
    /// Asks each replica that owes its part of the open write for it, in rising number, unless it has failed by then, and
    /// says whether the write is answered now.
    fn ask_all<R: Wait>(&mut self, rt: &R, t: TicketNumber, job: &Job, rooms: &mut Rooms) -> bool
        requires own { (o : OwnCall) × IsOwn t o (C.mine self.old.steps)
            × HoldsWrite o job.now.range.first (length self.old.channels) rooms.old }
        ensures stays { Stays C.home L.ends self.old self.new }
        ensures done { result ≡ true → EndsOpen (C.mine self.old.steps) (C.mine self.new.steps) }
        ensures goes { result ≡ false → KeepsOpen (C.mine self.old.steps) (C.mine self.new.steps) }
    {
        let first = job.range.first;
        let mut next = first_owed(&job.parts, self.channels.len());
        while let Some(replica) = next {
            let part = &WritePart {
                ticket: t,
                first,
                replica,
            };
            let blocks = &mut rooms.sets[replica as usize];
            match self.ask_write(rt, part, &mut rooms.request, blocks, &mut rooms.arrivals) {
                AfterPart::Answered => return true,
                AfterPart::GoesOn(further) => next = further,
            }
        }
        false
    }

    /// Carries the open write to its replicas, and waits for its end.
    fn carry_write<R: Wait>(&mut self, rt: &R, t: TicketNumber, job: &Job, rooms: &mut Rooms)
        requires own { (o : OwnCall) × IsOwn t o (C.mine self.old.steps)
            × HoldsWrite o job.now.range.first (length self.old.channels) rooms.old }
        ensures stays { Stays C.home L.ends self.old self.new }
        ensures done { (o : OwnCall) → IsOwn t o (C.mine self.old.steps)
            → EndsTo o (C.mine self.old.steps) (C.mine self.new.steps) }
    {
        if !self.ask_all(rt, t, job, rooms) {
            self.await_end(rt, t);
        }
    }

    /// Starts the open write, in room that is made before. Out of memory takes it back.
    fn begin_write<R: Wait>(
        &mut self,
        rt: &R,
        alloc: Global,
        write: &OpenWrite<'_>,
        rooms: &mut Rooms,
    ) -> Result<Option<Job>, AllocError>
        requires within { HasPlaces write.now.offset (length write.now.bytes.now) }
        requires waits { (o : OwnCall) × IsOwn write.now.ticket o (C.mine self.old.steps) × HasNotStarted o
            × (o.call ≡ Call.Write write.now.offset write.now.bytes.now) }
        ensures stays { StaysHome C.home self.old self.new }
        ensures ok { IfOk result (λ job. (o : OwnCall) → IsOwn write.now.ticket o (C.mine self.old.steps)
            → BeginsOr o job (length self.old.channels) rooms.new (C.mine self.old.steps) (C.mine self.new.steps)) }
        ensures err { OnErr result (C.mine self.new.steps ≡ with_running (C.mine self.old.steps) []) }
    {
        let range = touched_by(write.offset, write.bytes.len());
        let count = (range.end - range.first) as usize;
        if let Err(error) = rooms.make_for_write(alloc, count, self.channels.len()) {
            self.steps.withdraw(rt, write.ticket);
            return Err(error);
        }
        let Some(start) = self.start(rt, alloc, write.ticket)? else {
            return Ok(None);
        };
        let job = start.answer;
        fill_request(
            &mut rooms.request,
            job.front.as_slice(),
            write.bytes.as_slice(),
            job.back.as_slice(),
        );
        Ok(Some(job))
    }

    /// Takes the open write to its end. Out of memory takes it back.
    pub(crate) fn serve_write<R: Wait>(
        &mut self,
        rt: &R,
        alloc: Global,
        write: &OpenWrite<'_>,
        rooms: &mut Rooms,
    ) -> Result<(), AllocError>
        requires within { HasPlaces write.now.offset (length write.now.bytes.now) }
        requires waits { (o : OwnCall) × IsOwn write.now.ticket o (C.mine self.old.steps) × HasNotStarted o
            × (o.call ≡ Call.Write write.now.offset write.now.bytes.now) }
        ensures stays { Stays C.home L.ends self.old self.new }
        ensures ok { OnOk result ((o : OwnCall) → IsOwn write.now.ticket o (C.mine self.old.steps)
            → TakesUp o (C.mine self.old.steps) (C.mine self.new.steps)) }
        ensures err { OnErr result (C.mine self.new.steps ≡ with_running (C.mine self.old.steps) []) }
    {
        let Some(job) = self.begin_write(rt, alloc, write, rooms)? else {
            return Ok(());
        };
        self.carry_write(rt, write.ticket, &job, rooms);
        Ok(())
    }

    /// Asks that replica, if there is one, for the bytes of the open read, and says whether the read is answered now.
    fn ask_source<R: Wait>(
        &mut self,
        rt: &R,
        read: &OpenRead,
        source: Option<u8>,
        reply: &mut [u8],
        room: &mut Vec<u8>,
    ) -> bool
        requires source { TellsSource (C.modes self.old.steps) (length self.old.channels) source }
        requires room { header_length + length reply.old ≤ vec_capacity room.old }
        requires own { IsOpenRead read.now (C.mine self.old.steps) reply.old }
        ensures stays { Stays C.home L.ends self.old self.new }
        ensures room { vec_capacity room.old ≤ vec_capacity room.new }
        ensures done { result ≡ true → EndsOpen (C.mine self.old.steps) (C.mine self.new.steps) }
        ensures goes { result ≡ false → KeepsOpen (C.mine self.old.steps) (C.mine self.new.steps) }
    {
        match source {
            Some(replica) => self.ask_read(rt, read, replica, reply, room),
            None => false,
        }
    }

    /// The same, where there may be no replica that is read.
    fn read_round<R: Wait>(
        &mut self,
        rt: &R,
        read: &OpenRead,
        source: Option<u8>,
        reply: &mut [u8],
        room: &mut Vec<u8>,
    ) -> bool
        requires source { TellsSource (C.modes self.old.steps) (length self.old.channels) source }
        requires room { header_length + length reply.old ≤ vec_capacity room.old }
        requires own { IsOpenRead read.now (C.mine self.old.steps) reply.old }
        ensures stays { Stays C.home L.ends self.old self.new }
        ensures room { vec_capacity room.old ≤ vec_capacity room.new }
        ensures done { result ≡ true → EndsOpen (C.mine self.old.steps) (C.mine self.new.steps) }
        ensures goes { result ≡ false → KeepsOpen (C.mine self.old.steps) (C.mine self.new.steps)
            × NoneAcked (C.mine self.new.steps) }
    {
        self.ask_source(rt, read, source, reply, room) || self.finish(rt, read.ticket)
    }

    /// Carries the open read to the lowest replica that is left, until it is answered. Which that was when it started, is
    /// given.
    fn carry_read<R: Wait>(
        &mut self,
        rt: &R,
        read: &OpenRead,
        first: Option<u8>,
        reply: &mut [u8],
        room: &mut Vec<u8>,
    )
        requires source { TellsSource (C.modes self.old.steps) (length self.old.channels) first }
        requires room { header_length + length reply.old ≤ vec_capacity room.old }
        requires own { IsOpenRead read.now (C.mine self.old.steps) reply.old }
        ensures stays { Stays C.home L.ends self.old self.new }
        ensures done { (o : OwnCall) → IsOwn read.now.ticket o (C.mine self.old.steps)
            → EndsTo o (C.mine self.old.steps) (C.mine self.new.steps) }
    {
        let mut source = first;
        for _ in rt.forever() {
            if self.read_round(rt, read, source, reply, room) {
                return;
            }
            source = self.source(rt);
        }
        unreachable!()
    }

    /// Starts the open read, in room that is made before, and tells the lowest replica that is read: where it does not
    /// start, there is no replica. Out of memory takes it back.
    fn begin_read<R: Wait>(
        &mut self,
        rt: &R,
        alloc: Global,
        read: &OpenRead,
        rooms: &mut Rooms,
    ) -> Result<Option<WithSource<Job>>, AllocError>
        requires waits { (o : OwnCall) × IsOwn read.now.ticket o (C.mine self.old.steps) × HasNotStarted o }
        ensures stays { StaysHome C.home self.old self.new }
        ensures room { OnOk result (HasReadRoom read.now.count rooms.new) }
        ensures ok { IfOk result (λ start. (o : OwnCall) → IsOwn read.now.ticket o (C.mine self.old.steps)
            → o.call ≡ Call.Read read.now.offset read.now.count
            → ReadsOr o start read.now.offset read.now.count (C.mine self.old.steps) (C.mine self.new.steps)) }
        ensures source { IfOk result (λ start. IfSome start (λ s. TellsSource (C.modes self.new.steps)
            (length self.old.channels) s.source)) }
        ensures err { OnErr result (C.mine self.new.steps ≡ with_running (C.mine self.old.steps) []) }
    {
        if let Err(error) = rooms.make_for_read(read.count) {
            self.steps.withdraw(rt, read.ticket);
            return Err(error);
        }
        self.start(rt, alloc, read.ticket)
    }

    /// Takes the open read to its end. Out of memory takes it back.
    pub(crate) fn serve_read<R: Wait>(
        &mut self,
        rt: &R,
        alloc: Global,
        read: &OpenRead,
        rooms: &mut Rooms,
    ) -> Result<(), AllocError>
        requires short { read.now.count ≤ longest_call }
        requires waits { (o : OwnCall) × IsOwn read.now.ticket o (C.mine self.old.steps) × HasNotStarted o
            × (o.call ≡ Call.Read read.now.offset read.now.count) }
        ensures stays { Stays C.home L.ends self.old self.new }
        ensures ok { OnOk result ((o : OwnCall) → IsOwn read.now.ticket o (C.mine self.old.steps)
            → TakesUp o (C.mine self.old.steps) (C.mine self.new.steps)) }
        ensures err { OnErr result (C.mine self.new.steps ≡ with_running (C.mine self.old.steps) []) }
    {
        let Some(start) = self.begin_read(rt, alloc, read, rooms)? else {
            return Ok(());
        };
        let reply = &mut rooms.reply[..HEADER_LENGTH + read.count as usize];
        self.carry_read(rt, read, start.source, reply, &mut rooms.arrivals);
        Ok(())
    }
}

/// The first of so many replicas that owes its part.
fn first_owed(parts: &Parts, replicas: usize) -> Option<u8>
    requires { replicas ≤ 8 }
    ensures is { MatchOption result ((r : ℕ) → r < replicas → part_at parts.now r ≢ Part.Owed) (IsFirstOwed parts.now) }
    ensures inside { IfSome result (λ r. r < replicas) }
{
    for r in 0..replicas as u8 {
        if parts.at(r) == Part::Owed {
            return Some(r);
        }
    }
    None
}

/// The blocks in which the bytes of a write lie.
fn touched_by(offset: i64, length: usize) -> BlockRange
    requires { HasPlaces offset length }
    ensures is { result ≡ blocks_around (place_of offset) length }
    ensures up { result.first ≤ result.end }
    ensures inside { result.end * BLOCK_BYTES ≤ LARGEST_SIZE }
{
    BlockRange::touched(offset as usize, length)
}
