//! The commands of a stream are answered, one after another.

ghost use Rattle.std.specs.Prelude.{◌≡◌, ◌||◌, ◌≤◌, ℕ, [], length, true, All, IfOk, IfSome, OnOk, OnErr};
ghost use Rattle.client_worker.specs.Working.{KeepsLines};
ghost use Rattle.target_traits.specs.Objects.{Objects};
ghost use Rattle.control_worker.specs.Serving.{Commanded, CommandedSome, GrewByCommand, IsForWorker, LeftUndone};
ghost use Rattle.control_worker.specs.Backups.{IsLast};
ghost use Rattle.control_worker.specs.Store.{IsNoBackup, StoreSoFar, TellsFault};

use crate::carrier::Carrier;
use crate::rooms::Rooms;
use backup_make::BackupList;
use client_worker::Line;
use std::alloc::{AllocError, Global};
use std::sync::Wait;
use step_answers::WholeOp;
use stream_steps::{BackupSteps, Command};
use target_traits::Target;
use vol_units::{PlainName, TimeText};

/// What is to be told of commands that were answered, beside their answers.
#[derive(Clone, Copy, Debug, PartialEq, Eq)]
pub struct Served {
    /// Whether the target of backups failed.
    pub target_fault: bool,
}

impl<C: BackupSteps + Drop, L: Line + Drop> Carrier<C, L> {
    /// Answers the commands one after another, in room that it makes first.
    pub(crate) fn answer_all<R: Wait, T: Target>(
        &mut self,
        rt: &R,
        alloc: Global,
        commands: &[Command],
        volume: &PlainName,
        now: &TimeText,
        target: &mut T,
    ) -> Result<Served, AllocError>
        requires idle { (C.mine self.old.steps).running ≡ [] }
        requires taken { All (IsForWorker (length self.old.channels)) commands.now }
        // Where memory ran out, it may tell that the stream gave up.
        ensures home { OnOk result (C.home self.new.steps ≡ C.home self.old.steps) }
        ensures lines { KeepsLines L.ends self.old self.new }
        ensures ok { OnOk result (Commanded commands.now (C.mine self.old.steps) (C.mine self.new.steps)) }
        ensures store { OnOk result (T.tells ≡ true → (first : Objects) (from : ℕ)
            → StoreSoFar first from (T.holds target.old) (T.faults target.old) volume.now (C.mine self.old.steps).entries
            → StoreSoFar first from (T.holds target.new) (T.faults target.new) volume.now (C.mine self.new.steps).entries) }
        ensures fault { IfOk result (λ s. TellsFault s.target_fault (T.faults target.old) (T.faults target.new)) }
        ensures later { T.faults target.old ≤ T.faults target.new }
        ensures unasked { All IsNoBackup commands.now → target.new ≡ target.old }
        ensures err { OnErr result (CommandedSome commands.now (C.mine self.old.steps) (C.mine self.new.steps)) }
    {
        let mut rooms = Rooms::new(alloc)?;
        let mut last = None;
        let mut target_fault = false;
        for command in commands {
            let failed = self.answer_next(
                rt, alloc, command, volume, now, target, &mut last, &mut rooms,
            )?;
            let so_far = either(target_fault, failed);
            target_fault = so_far;
        }
        Ok(Served { target_fault })
    }

    /// Takes one command to its answer, and says whether the target failed.
    fn answer_next<R: Wait, T: Target>(
        &mut self,
        rt: &R,
        alloc: Global,
        command: &Command,
        volume: &PlainName,
        now: &TimeText,
        target: &mut T,
        last: &mut Option<BackupList>,
        rooms: &mut Rooms,
    ) -> Result<bool, AllocError>
        requires idle { (C.mine self.old.steps).running ≡ [] }
        requires taken { IsForWorker (length self.old.channels) command.now }
        requires last { IfSome last.old (IsLast T.tells (T.holds target.old) volume.now (C.mine self.old.steps).entries) }
        // Where memory ran out, it may tell that the stream gave up.
        ensures home { OnOk result (C.home self.new.steps ≡ C.home self.old.steps) }
        ensures lines { KeepsLines L.ends self.old self.new }
        ensures ok { OnOk result (GrewByCommand command.now (C.mine self.old.steps) (C.mine self.new.steps)) }
        ensures last { OnOk result
            (IfSome last.new (IsLast T.tells (T.holds target.new) volume.now (C.mine self.new.steps).entries)) }
        ensures store { OnOk result (T.tells ≡ true → (first : Objects) (from : ℕ)
            → StoreSoFar first from (T.holds target.old) (T.faults target.old) volume.now (C.mine self.old.steps).entries
            → StoreSoFar first from (T.holds target.new) (T.faults target.new) volume.now (C.mine self.new.steps).entries) }
        ensures fault { IfOk result (λ failed. TellsFault failed (T.faults target.old) (T.faults target.new)) }
        ensures later { T.faults target.old ≤ T.faults target.new }
        ensures unasked { IsNoBackup command.now → target.new ≡ target.old }
        ensures err { OnErr result (LeftUndone command.now (C.mine self.old.steps) (C.mine self.new.steps)) }
    {
        if let Command::Backup { backup, snapshot } = command {
            return self.backup(rt, alloc, volume, backup, snapshot, now, target, last);
        }
        self.answer(rt, alloc, command, rooms)?;
        Ok(false)
    }

    /// Takes one command to its answer that asks nothing of a target.
    fn answer<R: Wait>(
        &mut self,
        rt: &R,
        alloc: Global,
        command: &Command,
        rooms: &mut Rooms,
    ) -> Result<(), AllocError>
        requires idle { (C.mine self.old.steps).running ≡ [] }
        requires taken { IsForWorker (length self.old.channels) command.now }
        requires unasked { IsNoBackup command.now }
        // Where memory ran out, it may tell that the stream gave up.
        ensures home { OnOk result (C.home self.new.steps ≡ C.home self.old.steps) }
        ensures lines { KeepsLines L.ends self.old self.new }
        ensures ok { OnOk result (GrewByCommand command.now (C.mine self.old.steps) (C.mine self.new.steps)) }
        ensures err { OnErr result (LeftUndone command.now (C.mine self.old.steps) (C.mine self.new.steps)) }
    {
        match command {
            Command::Fail(_) | Command::Status => {
                self.steps.answer_at_once(rt, alloc, command)?;
                Ok(())
            }
            Command::Snapshot(name) => self.snapshot(rt, alloc, name, rooms),
            Command::Remove(name) => self.under_turn(rt, alloc, WholeOp::Remove(*name), rooms),
            Command::Revert(name) => self.under_turn(rt, alloc, WholeOp::Revert(*name), rooms),
            Command::Purge => self.purge(rt, alloc, rooms),
            Command::Add(replica) => self.add(rt, alloc, *replica, rooms),
            // It asks a target.
            Command::Backup { .. } => unreachable!(),
        }
    }
}

/// Whether one of both is so.
fn either(before: bool, now: bool) -> bool
    ensures { result ≡ (before || now) }
{
    before || now
}
