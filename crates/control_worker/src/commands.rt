//! A snapshot, a removal or a revert, from its call to its answer.

ghost use Rattle.std.specs.Prelude.{◌≡◌, List, [], true, false, IfOk, OnOk, OnErr};
ghost use Rattle.vol_units.specs.Name.{begins_sys};
ghost use Rattle.volume_model.specs.declared.command.Command.{Command};
ghost use Rattle.step_answers.specs.Asked.{command_of};
ghost use Rattle.stream_steps.specs.Mine.{OwnCall, with_running};
ghost use Rattle.stream_steps.specs.Maint.{AwaitsTurn, EnrolsUnder, HasTurn, HasWhole, IsMaint};
ghost use Rattle.client_worker.specs.Working.{KeepsLines, Stays};
ghost use Rattle.control_worker.specs.Serving.{GrewByCommand};
ghost use Rattle.control_worker.specs.Whole.{AnswersCall, IsNoPart, IsWhole, TurnBegins};

use crate::carrier::Carrier;
use crate::parts::Whole;
use crate::rooms::Rooms;
use client_worker::Line;
use range_turns::{MayStart, TicketNumber};
use std::alloc::{AllocError, Global};
use std::sync::Wait;
use step_answers::WholeOp;
use stream_steps::{AddSteps, Command};
use vol_units::SnapName;

impl<C: AddSteps + Drop, L: Line + Drop> Carrier<C, L> {
    /// Takes a snapshot. Out of memory leaves it untaken.
    pub(crate) fn snapshot<R: Wait>(
        &mut self,
        rt: &R,
        alloc: Global,
        name: &SnapName,
        rooms: &mut Rooms,
    ) -> Result<(), AllocError>
        requires idle { (C.mine self.old.steps).running ≡ [] }
        requires user { begins_sys name.now ≡ false }
        ensures stays { Stays C.home L.ends self.old self.new }
        ensures ok { OnOk result (GrewByCommand (Command.Snapshot name.now)
            (C.mine self.old.steps) (C.mine self.new.steps)) }
        ensures err { OnErr result (C.mine self.new.steps ≡ C.mine self.old.steps) }
    {
        let op = WholeOp::Snapshot(*name);
        let ticket = self.steps.enrol_snapshot(rt, alloc, &op)?;
        self.take_up(rt, alloc, &Whole { ticket, op }, rooms)
    }

    /// Removes a snapshot, or reverts to one, under the maintenance turn. Out of memory leaves it undone.
    pub(crate) fn under_turn<R: Wait>(
        &mut self,
        rt: &R,
        alloc: Global,
        op: WholeOp,
        rooms: &mut Rooms,
    ) -> Result<(), AllocError>
        requires idle { (C.mine self.old.steps).running ≡ [] }
        requires wants { IsMaint (command_of op) × IsNoPart op }
        // Where memory ran out, it may tell that the stream gave up.
        ensures home { OnOk result (C.home self.new.steps ≡ C.home self.old.steps) }
        ensures lines { KeepsLines L.ends self.old self.new }
        ensures ok { OnOk result (GrewByCommand (command_of op) (C.mine self.old.steps) (C.mine self.new.steps)) }
        ensures err { OnErr result (C.mine self.new.steps ≡ C.mine self.old.steps) }
    {
        let t = self.steps.enrol_maint(rt, alloc, &op.command())?;
        self.await_turn(rt, t);
        let ticket = self.enrol_under(rt, alloc, t, &op)?;
        let done = self.take_up(rt, alloc, &Whole { ticket, op }, rooms);
        if done.is_err() {
            self.steps.abandon(rt, t);
        }
        done
    }

    /// Waits until the command has the maintenance turn.
    pub(crate) fn await_turn<R: Wait>(&mut self, rt: &R, t: TicketNumber)
        requires waits { (c : Command) × (o : OwnCall) × AwaitsTurn t c o (C.mine self.old.steps) }
        ensures stays { Stays C.home L.ends self.old self.new }
        ensures turn { (c : Command) (o : OwnCall) → AwaitsTurn t c o (C.mine self.old.steps)
            → TurnBegins o (C.mine self.old.steps) (C.mine self.new.steps) }
        ensures unbegun { C.unbegun self.new.steps }
    {
        for _ in rt.forever() {
            if self.steps.admit_maint(rt, t) == MayStart::Yes {
                return;
            }
        }
        unreachable!()
    }

    /// Puts what the command does that has the turn behind all calls. Out of memory gives the turn back.
    fn enrol_under<R: Wait>(
        &mut self,
        rt: &R,
        alloc: Global,
        t: TicketNumber,
        op: &WholeOp,
    ) -> Result<TicketNumber, AllocError>
        requires turn { (o : OwnCall) × HasTurn t (command_of op.now) o (C.mine self.old.steps) }
        requires plain { IsNoPart op.now }
        // Where memory ran out, it may tell that the stream gave up.
        ensures home { OnOk result (C.home self.new.steps ≡ C.home self.old.steps) }
        ensures lines { KeepsLines L.ends self.old self.new }
        ensures ok { IfOk result (λ n. (o : OwnCall) → HasTurn t (command_of op.now) o (C.mine self.old.steps)
            → EnrolsUnder n op.now o (C.mine self.old.steps) (C.mine self.new.steps)) }
        ensures err { OnErr result (C.mine self.new.steps ≡ with_running (C.mine self.old.steps) []) }
    {
        match self.steps.enrol_whole(rt, alloc, t, op) {
            Ok(Some(whole)) => Ok(whole),
            // Only a part of a purge may be one that cannot go.
            Ok(None) => unreachable!(),
            Err(error) => {
                self.steps.abandon(rt, t);
                Err(error)
            }
        }
    }

    /// Takes the operation that waits to the answer of its call. Out of memory takes it back.
    fn take_up<R: Wait>(
        &mut self,
        rt: &R,
        alloc: Global,
        whole: &Whole,
        rooms: &mut Rooms,
    ) -> Result<(), AllocError>
        requires waits { IsWhole false whole.now.ticket whole.now.op (C.mine self.old.steps) }
        requires answered { IsNoPart whole.now.op }
        ensures stays { Stays C.home L.ends self.old self.new }
        ensures ok { OnOk result ((turn : List OwnCall) (o : OwnCall)
            → HasWhole whole.now.ticket whole.now.op turn o (C.mine self.old.steps)
            → AnswersCall o (C.mine self.old.steps) (C.mine self.new.steps)) }
        ensures err { OnErr result ((turn : List OwnCall) (o : OwnCall)
            → HasWhole whole.now.ticket whole.now.op turn o (C.mine self.old.steps)
            → C.mine self.new.steps ≡ with_running (C.mine self.old.steps) turn) }
    {
        if self.start(rt, alloc, whole.ticket)? {
            self.carry_whole(rt, whole, rooms);
        }
        Ok(())
    }
}
