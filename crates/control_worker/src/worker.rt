//! The worker of a stream of commands, as a value.

ghost use Rattle.std.specs.Prelude.{◌≡◌, ◌≤◌, ℕ, length, true, All, IfOk, OnOk, OnErr};
ghost use Rattle.target_traits.specs.Objects.{Objects};
ghost use Rattle.client_worker.specs.Working.{IsIdle, KeepsLines};
ghost use Rattle.control_worker.specs.Serving.{Commanded, CommandedSome, IsForWorker};
ghost use Rattle.control_worker.specs.Store.{IsNoBackup, StoreSoFar, TellsFault};

use crate::carrier::Carrier;
use crate::control::Served;
use client_worker::{Channel, Line};
use std::alloc::{AllocError, Global};
use std::marker::Model;
use std::sync::Wait;
use stream_steps::{BackupSteps, Command};
use target_traits::Target;
use vol_units::{PlainName, TimeText};

/// What answers a stream's commands: the steps of its core, and a line to each replica.
#[derive(Drop)]
pub struct ControlWorker<C: BackupSteps + Drop, L: Line + Drop> {
    carrier: Carrier<C, L>,
}

impl<C: BackupSteps + Drop, L: Line + Drop> Model for ControlWorker<C, L> {
    ghost use Rattle.std.specs.Prelude.{◌≡◌, []};
    ghost use Rattle.client_worker.specs.Working.{Work};

    ghost Value = { Work C L };

    ghost view = { λ w. w.carrier };

    ghost invariant = { λ w. (C.mine w.carrier.steps).running ≡ [] };
}

impl<C: BackupSteps + Drop, L: Line + Drop> ControlWorker<C, L> {
    /// Of these steps and lines.
    pub fn new(steps: C, channels: Vec<Channel<L>>) -> ControlWorker<C, L>
        requires { IsIdle C.ready C.mine L.count L.carried (record { steps = steps; channels = channels.items }) }
        ensures { result ≡ record { steps = steps; channels = channels.items } }
    {
        ControlWorker {
            carrier: Carrier::new(steps, channels),
        }
    }

    /// The steps and the lines, once no more is to be answered.
    pub fn into_parts(self) -> (C, Vec<Channel<L>>)
        ensures parts { self ≡ record { steps = result.0; channels = result.1.items } }
        ensures idle { IsIdle C.ready C.mine L.count L.carried self }
    {
        (self.carrier.steps, self.carrier.channels)
    }

    /// Answers the commands of a stream one after another. Its backups are of that volume, and go to the target, made at
    /// that time. A target that fails ends its backup, and the next command goes on. Out of memory leaves none of them
    /// open, and what was done before it stands.
    pub fn run_control<R: Wait, T: Target>(
        &mut self,
        rt: &R,
        alloc: Global,
        commands: &[Command],
        volume: &PlainName,
        now: &TimeText,
        target: &mut T,
    ) -> Result<Served, AllocError>
        requires taken { All (IsForWorker (length self.old.channels)) commands.now }
        // Where memory ran out, it may tell that the stream gave up.
        ensures home { OnOk result (C.home self.new.steps ≡ C.home self.old.steps) }
        ensures lines { KeepsLines L.ends self.old self.new }
        ensures ok { OnOk result (Commanded commands.now (C.mine self.old.steps) (C.mine self.new.steps)) }
        // What the target held at first and what it holds now, with the stream's entries, where it tells that.
        ensures store { OnOk result (T.tells ≡ true → (first : Objects) (from : ℕ)
            → StoreSoFar first from (T.holds target.old) (T.faults target.old) volume.now (C.mine self.old.steps).entries
            → StoreSoFar first from (T.holds target.new) (T.faults target.new) volume.now (C.mine self.new.steps).entries) }
        ensures fault { IfOk result (λ s. TellsFault s.target_fault (T.faults target.old) (T.faults target.new)) }
        ensures later { T.faults target.old ≤ T.faults target.new }
        ensures unasked { All IsNoBackup commands.now → target.new ≡ target.old }
        ensures err { OnErr result (CommandedSome commands.now (C.mine self.old.steps) (C.mine self.new.steps)) }
    {
        self.carrier
            .answer_all(rt, alloc, commands, volume, now, target)
    }
}
