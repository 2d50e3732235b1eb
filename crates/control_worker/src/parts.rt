//! What is done to the whole volume: a replica after another is asked for its part.

ghost use Rattle.std.specs.Prelude.{◌≡◌, ◌⊎◌, ℕ, ◌+◌, ◌<◌, ◌≤◌, List, length, vec_capacity, true, false, IfOk, OnErr};
ghost use Rattle.step_answers.specs.declared.whole_op.WholeOp.{WholeOp};
ghost use Rattle.volume_model.specs.Modes.{mode_of};
ghost use Rattle.frame_wire.specs.Spelling.{header_length};
ghost use Rattle.stream_steps.specs.Mine.{OwnCall, with_running};
ghost use Rattle.stream_steps.specs.Maint.{HasWhole, IsNoBarrier, WholeEnds};
ghost use Rattle.client_worker.specs.Exchanges.{told_in};
ghost use Rattle.client_worker.specs.Working.{Stays, told_by};
ghost use Rattle.control_worker.specs.Carrying.{Keeps};
ghost use Rattle.control_worker.specs.Frames.{AsksPart};
ghost use Rattle.control_worker.specs.Whole.{AwaitsNone, EndsBehind, IsAskedLast, IsWhole, KeepsWhole, OwesNone, PartsShown, PassesBarrier, StartsOr};

use crate::carrier::Carrier;
use crate::frames::{ask_head, done_head, fill_barrier, fill_part};
use crate::rooms::Rooms;
use client_worker::{Line, next_exchange, put_header};
use frame_wire::{HEADER_LENGTH, encode_header};
use range_turns::TicketNumber;
use std::alloc::{AllocError, Global};
use std::sync::Wait;
use step_answers::{AdmitWhole, WholeOp};
use stream_steps::AddSteps;
use vol_units::LayerName;
use volume_model::Mode;

/// An operation on the whole volume, and the ticket under which it is open.
#[derive(Clone, Copy, Debug, PartialEq, Eq)]
pub(crate) struct Whole {
    pub(crate) ticket: TicketNumber,
    pub(crate) op: WholeOp,
}

impl<C: AddSteps + Drop, L: Line + Drop> Carrier<C, L> {
    /// Waits until the operation, which is no barrier, starts, or its call is refused, and says whether it has started.
    /// Out of memory takes it back.
    pub(crate) fn start<R: Wait>(
        &mut self,
        rt: &R,
        alloc: Global,
        t: TicketNumber,
    ) -> Result<bool, AllocError>
        requires waits { (op : WholeOp) × IsWhole false t op (C.mine self.old.steps) × IsNoBarrier op }
        ensures stays { Stays C.home L.ends self.old self.new }
        ensures lines { self.new.channels ≡ self.old.channels }
        ensures ok { IfOk result (λ started. (op : WholeOp) (turn : List OwnCall) (o : OwnCall)
            → HasWhole t op turn o (C.mine self.old.steps)
            → StartsOr started op turn o (C.mine self.old.steps) (C.mine self.new.steps)) }
        ensures err { OnErr result ((op : WholeOp) (turn : List OwnCall) (o : OwnCall)
            → HasWhole t op turn o (C.mine self.old.steps)
            → C.mine self.new.steps ≡ with_running (C.mine self.old.steps) turn) }
    {
        for _ in rt.forever() {
            match self.steps.admit_whole(rt, alloc, t) {
                Ok(AdmitWhole::Go) => return Ok(true),
                Ok(AdmitWhole::Refused(_, _)) => return Ok(false),
                Ok(AdmitWhole::After(_)) => {}
                Ok(AdmitWhole::Never) => unreachable!(),
                Err(error) => {
                    self.steps.withdraw_whole(rt, t);
                    return Err(error);
                }
            }
        }
        unreachable!()
    }

    /// Asks a replica for its part, unless it has failed: its request is there but for the header.
    fn ask_part<R: Wait>(&mut self, rt: &R, whole: &Whole, replica: u8, rooms: &mut Rooms)
        requires line { replica < length self.old.channels }
        requires asks { AsksPart whole.now.op rooms.old }
        requires shown { PartsShown whole.now.ticket whole.now.op (C.mine self.old.steps) (told_by L.carried self.old) }
        ensures keeps { Keeps C.home C.begun L.ends self.old self.new }
        ensures asks { AsksPart whole.now.op rooms.new }
        ensures shown { PartsShown whole.now.ticket whole.now.op (C.mine self.new.steps) (told_by L.carried self.new) }
        ensures goes { KeepsWhole whole.now.ticket (C.mine self.old.steps) (C.mine self.new.steps) }
        ensures asked { OwesNone whole.now.ticket whole.now.op replica (C.mine self.new.steps)
            ⊎ (mode_of (C.modes self.new.steps) replica ≡ Mode.Err) }
    {
        if self.steps.mode_of(rt, replica) == Mode::Err {
            return;
        }
        let seq = next_exchange(&mut self.channels, replica);
        let request = &mut rooms.request;
        let count = (request.len() - HEADER_LENGTH) as u32;
        put_header(request, &ask_head(seq, 0, count));
        if !self.pass(rt, replica, request, &mut rooms.arrivals) {
            return;
        }
        if self.steps.part(rt, whole.ticket, replica).is_err() {
            return;
        }
        self.reply_part(rt, whole, replica, seq, &mut rooms.arrivals);
    }

    /// Carries the reply of a replica that took its part, which is thereby acknowledged: its request came through.
    fn reply_part<R: Wait>(
        &mut self,
        rt: &R,
        whole: &Whole,
        replica: u8,
        seq: u32,
        room: &mut Vec<u8>,
    )
        requires line { replica < length self.old.channels }
        requires room { header_length ≤ vec_capacity room.old }
        requires asked { IsAskedLast seq whole.now.op (told_in (told_by L.carried self.old) replica) }
        requires shown { PartsShown whole.now.ticket whole.now.op (C.mine self.old.steps) (told_by L.carried self.old) }
        ensures room { vec_capacity room.old ≤ vec_capacity room.new }
        ensures keeps { Keeps C.home C.begun L.ends self.old self.new }
        ensures shown { PartsShown whole.now.ticket whole.now.op (C.mine self.new.steps) (told_by L.carried self.new) }
        ensures goes { KeepsWhole whole.now.ticket (C.mine self.old.steps) (C.mine self.new.steps) }
        ensures replied { AwaitsNone whole.now.ticket whole.now.op replica (C.mine self.new.steps)
            ⊎ (mode_of (C.modes self.new.steps) replica ≡ Mode.Err) }
    {
        let reply = encode_header(&done_head(seq, 0));
        if self.pass(rt, replica, &reply, room) {
            let _ = self.steps.ack_whole(rt, whole.ticket, replica);
        }
    }

    /// Asks each replica, in rising number, for its part of the operation.
    fn ask_all<R: Wait>(&mut self, rt: &R, whole: &Whole, rooms: &mut Rooms)
        requires asks { AsksPart whole.now.op rooms.old }
        requires shown { PartsShown whole.now.ticket whole.now.op (C.mine self.old.steps) (told_by L.carried self.old) }
        ensures keeps { Keeps C.home C.begun L.ends self.old self.new }
        ensures shown { PartsShown whole.now.ticket whole.now.op (C.mine self.new.steps) (told_by L.carried self.new) }
        ensures goes { KeepsWhole whole.now.ticket (C.mine self.old.steps) (C.mine self.new.steps) }
        // A replica that is asked no more had failed when it was its turn.
        ensures asked { (r : ℕ) → r < length self.old.channels
            → OwesNone whole.now.ticket whole.now.op r (C.mine self.new.steps)
            ⊎ ((seen : C) × (C.home seen ≡ C.home self.old.steps) × (mode_of (C.modes seen) r ≡ Mode.Err)) }
    {
        for r in 0..self.channels.len() {
            self.ask_part(rt, whole, r as u8, rooms);
        }
    }

    /// Waits until the operation has ended.
    fn await_end<R: Wait>(&mut self, rt: &R, t: TicketNumber)
        requires started { (op : WholeOp) × IsWhole true t op (C.mine self.old.steps) }
        ensures stays { Stays C.home L.ends self.old self.new }
        ensures done { (op : WholeOp) (turn : List OwnCall) (o : OwnCall) → HasWhole t op turn o (C.mine self.old.steps)
            → WholeEnds op turn o (C.mine self.old.steps) (C.mine self.new.steps) }
        ensures past { (r : ℕ) (turn : List OwnCall) (o : OwnCall)
            → HasWhole t (WholeOp.Barrier r) turn o (C.mine self.old.steps)
            → PassesBarrier C.begun r self.old.steps self.new.steps }
    {
        for _ in rt.forever() {
            if self.steps.complete_whole(rt, t).is_ok() {
                return;
            }
        }
        unreachable!()
    }

    /// Carries the operation, which has started, to the replicas, and waits for its end.
    pub(crate) fn carry_whole<R: Wait>(&mut self, rt: &R, whole: &Whole, rooms: &mut Rooms)
        requires shown { PartsShown whole.now.ticket whole.now.op (C.mine self.old.steps) (told_by L.carried self.old) }
        ensures stays { Stays C.home L.ends self.old self.new }
        ensures done { (turn : List OwnCall) (o : OwnCall)
            → HasWhole whole.now.ticket whole.now.op turn o (C.mine self.old.steps)
            → EndsBehind whole.now.op turn o (C.mine self.old.steps) (C.mine self.new.steps) }
    {
        fill_part(&mut rooms.request, &whole.op);
        self.carry_filled(rt, whole, rooms);
    }

    /// Carries the barrier of an add, which has started, to the replicas, and waits for its end.
    pub(crate) fn carry_barrier<R: Wait>(
        &mut self,
        rt: &R,
        whole: &Whole,
        name: &LayerName,
        rooms: &mut Rooms,
    )
        requires barrier { (r : ℕ) × (whole.now.op ≡ WholeOp.Barrier r) }
        requires shown { PartsShown whole.now.ticket whole.now.op (C.mine self.old.steps) (told_by L.carried self.old) }
        ensures stays { Stays C.home L.ends self.old self.new }
        ensures done { (turn : List OwnCall) (o : OwnCall)
            → HasWhole whole.now.ticket whole.now.op turn o (C.mine self.old.steps)
            → EndsBehind whole.now.op turn o (C.mine self.old.steps) (C.mine self.new.steps) }
        ensures past { (r : ℕ) → whole.now.op ≡ WholeOp.Barrier r
            → PassesBarrier C.begun r self.old.steps self.new.steps }
    {
        fill_barrier(&mut rooms.request, name);
        self.carry_filled(rt, whole, rooms);
    }

    /// Carries the operation to the replicas, and waits for its end: the request for its parts is there but for the
    /// header.
    fn carry_filled<R: Wait>(&mut self, rt: &R, whole: &Whole, rooms: &mut Rooms)
        requires asks { AsksPart whole.now.op rooms.old }
        requires shown { PartsShown whole.now.ticket whole.now.op (C.mine self.old.steps) (told_by L.carried self.old) }
        ensures stays { Stays C.home L.ends self.old self.new }
        ensures done { (turn : List OwnCall) (o : OwnCall)
            → HasWhole whole.now.ticket whole.now.op turn o (C.mine self.old.steps)
            → EndsBehind whole.now.op turn o (C.mine self.old.steps) (C.mine self.new.steps) }
        ensures past { (r : ℕ) → whole.now.op ≡ WholeOp.Barrier r
            → PassesBarrier C.begun r self.old.steps self.new.steps }
    {
        self.ask_all(rt, whole, rooms);
        self.await_end(rt, whole.ticket);
    }
}
