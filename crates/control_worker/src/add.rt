//! An addition, from its call to its answer.

ghost use Rattle.std.specs.Prelude.{◌≡◌, ℕ, ◌<◌, [], length, true, OnOk, OnErr};
ghost use Rattle.volume_model.specs.declared.command.Command.{Command};
ghost use Rattle.stream_steps.specs.Mine.{OwnCall};
ghost use Rattle.stream_steps.specs.Add.{EndsAborted, HasAdd};
ghost use Rattle.client_worker.specs.Working.{KeepsLines, Stays};
ghost use Rattle.control_worker.specs.Serving.{GrewByCommand, LeftUndone};
ghost use Rattle.control_worker.specs.Adding.{AddsTo, EndsAs, EndsRebuild, GoesAdding};

use crate::carrier::Carrier;
use crate::rooms::Rooms;
use client_worker::Line;
use rebuild_worker::Copied;
use std::alloc::{AllocError, Global};
use std::sync::Wait;
use stream_steps::{AddSteps, Command, TicketNumber};

impl<C: AddSteps + Drop, L: Line + Drop> Carrier<C, L> {
    /// Has a failed replica rebuilt, under the maintenance turn. Out of memory gives the turn back, and aborts the
    /// rebuild.
    pub(crate) fn add<R: Wait>(
        &mut self,
        rt: &R,
        alloc: Global,
        replica: u8,
        rooms: &mut Rooms,
    ) -> Result<(), AllocError>
        requires line { replica < length self.old.channels }
        requires idle { (C.mine self.old.steps).running ≡ [] }
        // Where memory ran out, it may tell that the stream gave up.
        ensures home { OnOk result (C.home self.new.steps ≡ C.home self.old.steps) }
        ensures lines { KeepsLines L.ends self.old self.new }
        ensures ok { OnOk result (GrewByCommand (Command.Add replica) (C.mine self.old.steps) (C.mine self.new.steps)) }
        ensures err { OnErr result (LeftUndone (Command.Add replica) (C.mine self.old.steps) (C.mine self.new.steps)) }
    {
        let t = self.steps.enrol_maint(rt, alloc, &Command::Add(replica))?;
        self.await_turn(rt, t);
        let done = self.rebuild(rt, alloc, t, replica, rooms);
        if done.is_err() {
            self.steps.abandon_add(rt, t);
        }
        done
    }

    /// Takes the add that has the turn to its answer. Out of memory leaves it the turn.
    fn rebuild<R: Wait>(
        &mut self,
        rt: &R,
        alloc: Global,
        t: TicketNumber,
        replica: u8,
        rooms: &mut Rooms,
    ) -> Result<(), AllocError>
        requires there { replica < (C.mine self.old.steps).replicas }
        requires turn { (o : OwnCall) × HasAdd t replica o (C.mine self.old.steps) }
        requires unbegun { C.unbegun self.old.steps }
        ensures stays { Stays C.home L.ends self.old self.new }
        ensures ok { OnOk result ((o : OwnCall) → HasAdd t replica o (C.mine self.old.steps)
            → AddsTo replica o (C.mine self.old.steps) (C.mine self.new.steps)) }
        ensures err { OnErr result ((o : OwnCall) → HasAdd t replica o (C.mine self.old.steps)
            → GoesAdding o (C.mine self.old.steps) (C.mine self.new.steps)) }
    {
        let Some(source) = self.pass_barrier(rt, alloc, t, replica, rooms)? else {
            return Ok(());
        };
        let copied = self.copy_pages(rt, alloc, t, source, replica)?;
        self.end_add(rt, t, copied);
        Ok(())
    }

    /// Answers the add: its replica is promoted where every page was copied, unless its rebuild was aborted.
    fn end_add<R: Wait>(&mut self, rt: &R, t: TicketNumber, copied: Copied)
        requires turn { (r : ℕ) × (o : OwnCall) × HasAdd t r o (C.mine self.old.steps) }
        requires begun { (source r : ℕ) × C.begun self.old.steps true source r }
        requires copied { EndsAs copied (C.left self.old.steps) (C.is_aborted self.old.steps) }
        ensures stays { Stays C.home L.ends self.old self.new }
        ensures done { (r : ℕ) (o : OwnCall) → HasAdd t r o (C.mine self.old.steps)
            → EndsRebuild r o (C.mine self.old.steps) (C.mine self.new.steps) }
    {
        match copied {
            Copied::All => self.promote_or_end(rt, t),
            Copied::Ended(place) => self.answer_aborted(rt, t, place),
        }
    }

    /// Promotes the replica, of which no page is left, unless the rebuild was aborted, and answers the add.
    fn promote_or_end<R: Wait>(&mut self, rt: &R, t: TicketNumber)
        requires turn { (r : ℕ) × (o : OwnCall) × HasAdd t r o (C.mine self.old.steps) }
        requires begun { (source r : ℕ) × C.begun self.old.steps true source r }
        requires left { C.left self.old.steps ≡ 0 }
        ensures stays { Stays C.home L.ends self.old self.new }
        ensures done { (r : ℕ) (o : OwnCall) → HasAdd t r o (C.mine self.old.steps)
            → EndsRebuild r o (C.mine self.old.steps) (C.mine self.new.steps) }
    {
        if self.steps.promote(rt, t).is_some() {
            return;
        }
        match self.steps.aborted(rt, t) {
            Some(place) => self.answer_aborted(rt, t, place),
            // Nothing else stands against it where no page is left.
            None => unreachable!(),
        }
    }

    /// Answers the add that its rebuild was aborted, whose mark stands at that place.
    fn answer_aborted<R: Wait>(&mut self, rt: &R, t: TicketNumber, place: u64)
        requires turn { (r : ℕ) × (o : OwnCall) × HasAdd t r o (C.mine self.old.steps) }
        requires aborted { C.is_aborted self.old.steps place }
        ensures stays { Stays C.home L.ends self.old self.new }
        ensures done { (r : ℕ) (o : OwnCall) → HasAdd t r o (C.mine self.old.steps)
            → EndsAborted r place o (C.mine self.old.steps) (C.mine self.new.steps) }
    {
        match self.steps.end_aborted(rt, t, place) {
            Some(_) => {}
            // It is refused only where no such mark stands.
            None => unreachable!(),
        }
    }
}
