//! What carries a stream's commands: frames go to the replicas, and a replica whose line fails has failed.

ghost use Rattle.std.specs.Prelude.{◌≡◌, ◌<◌, ◌≤◌, [], length, vec_capacity, slice_index_or};
ghost use Rattle.volume_model.specs.Faults.{last_count};
ghost use Rattle.volume_model.specs.Modes.{mode_of};
ghost use Rattle.stream_steps.specs.Mine.{entries_in, with_running};
ghost use Rattle.client_worker.specs.Asking.{Arrives, TellOn};
ghost use Rattle.client_worker.specs.Working.{IsServing, counts_of, told_by};
ghost use Rattle.control_worker.specs.Carrying.{Keeps, PassesOr};
ghost use Rattle.control_worker.specs.Whole.{GoesOn};

use client_worker::{Channel, Line, carry};
use std::marker::Model;
use std::sync::Wait;
use stream_steps::AddSteps;
use volume_model::Mode;

/// The steps of a stream's core, and a line to each replica. Between any two steps the lines show what was answered.
#[derive(Drop)]
pub(crate) struct Carrier<C: AddSteps + Drop, L: Line + Drop> {
    pub(crate) steps: C,
    pub(crate) channels: Vec<Channel<L>>,
}

impl<C: AddSteps + Drop, L: Line + Drop> Model for Carrier<C, L> {
    ghost use Rattle.std.specs.Prelude.{[]};
    ghost use Rattle.stream_steps.specs.Mine.{with_running};
    ghost use Rattle.client_worker.specs.Working.{Work, IsServing};

    ghost Value = { Work C L };

    ghost view = { λ w. record { steps = w.steps; channels = w.channels.items } };

    // Of an open command there is nothing to show.
    ghost invariant = { λ w. IsServing C.ready (λ s. with_running (C.mine s) []) L.count L.carried
        (record { steps = w.steps; channels = w.channels.items }) };
}

impl<C: AddSteps + Drop, L: Line + Drop> Carrier<C, L> {
    /// Of these steps and lines.
    pub(crate) fn new(steps: C, channels: Vec<Channel<L>>) -> Carrier<C, L>
        requires { IsServing C.ready (λ s. with_running (C.mine s) []) L.count L.carried
            (record { steps = steps; channels = channels.items }) }
        ensures { result ≡ record { steps = steps; channels = channels.items } }
    {
        Carrier { steps, channels }
    }

    /// The line to a replica has failed: the core is told its count.
    fn tell_fault<R: Wait>(&mut self, rt: &R, replica: u8)
        requires line { replica < length self.old.channels }
        // Its count is above that of its last mark, so that the core has to take it.
        requires above { last_count (C.mine self.old.steps).stream replica (entries_in (C.mine self.old.steps).entries)
            < slice_index_or (counts_of L.count self.old) replica 0 }
        ensures keeps { Keeps C.home C.begun L.ends self.old self.new }
        ensures lines { self.new.channels ≡ self.old.channels }
        ensures goes { GoesOn (C.mine self.old.steps) (C.mine self.new.steps) }
        ensures failed { mode_of (C.modes self.new.steps) replica ≡ Mode.Err }
    {
        let count = self.channels[replica as usize].line.faults();
        let _ = self.steps.line_failed(rt, replica, count);
    }

    /// Carries a frame to a replica, and says whether it came through: where it did not, the replica has failed. It
    /// arrives in the room, which takes no memory.
    pub(crate) fn pass<R: Wait>(
        &mut self,
        rt: &R,
        replica: u8,
        frame: &[u8],
        room: &mut Vec<u8>,
    ) -> bool
        requires line { replica < length self.old.channels }
        requires frame { Arrives frame.now (vec_capacity room.old) }
        ensures room { vec_capacity room.old ≤ vec_capacity room.new }
        ensures keeps { Keeps C.home C.begun L.ends self.old self.new }
        ensures told { TellOn (told_by L.carried self.old) (told_by L.carried self.new) }
        ensures goes { GoesOn (C.mine self.old.steps) (C.mine self.new.steps) }
        ensures passes { PassesOr C.modes L.carried replica frame.now result self.old self.new }
    {
        if carry(&mut self.channels, replica, frame, room) {
            return true;
        }
        self.tell_fault(rt, replica);
        false
    }
}
