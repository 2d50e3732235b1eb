//! A line fails, and so its replica.

ghost use Rattle.std.specs.Prelude.{◌≡◌, ◌≢◌, ◌+◌, ◌<◌, ◌≤◌, length, OnOk, IfErr, OnErr};
ghost use Rattle.volume_model.specs.Faults.{last_count};
ghost use Rattle.volume_model.specs.Modes.{mode_of};
ghost use Rattle.volume_core.specs.State.{state_of, modes_in};
ghost use Rattle.volume_core.specs.Steps.{faulted, aborted, behind_fall, marks_of_fall};
ghost use Rattle.volume_core.specs.Sound.{IsSound};
ghost use Rattle.volume_core.specs.Streams.{MayGo, Stays, HasFault};
ghost use Rattle.volume_core.specs.Against.{AgainstFault};

use crate::world::{EndedRebuild, World};
use journal_book::{Entry, Mark, Mode};
use step_answers::NotThis;

impl World {
    /// The line of a stream to a replica has failed, so the replica does: the line's count of faults. Where it is the
    /// source or the target of the rebuild that is open, the rebuild is aborted. It takes no memory.
    pub fn fault(&mut self, stream: u8, replica: u8, count: u64) -> Result<(), NotThis>
        requires sound { IsSound (state_of self.old) }
        requires stream { stream < length self.old.indices.items }
        ensures sound { IsSound (state_of self.new) }
        ensures ok { OnOk result (state_of self.new ≡ faulted (state_of self.old) stream replica count) }
        ensures guard { OnOk result ((mode_of (modes_in (state_of self.old)) replica ≢ Mode.Err)
            × (last_count stream replica self.old.journal.entries < count)) }
        ensures why { IfErr result (AgainstFault (state_of self.old) stream replica count) }
        ensures err { OnErr result (state_of self.new ≡ state_of self.old) }
        ensures may { MayGo stream (state_of self.old) (state_of self.new) }
        ensures sees { OnOk result (HasFault stream replica count (state_of self.old) (state_of self.new)) }
        ensures stays { OnErr result (Stays stream (state_of self.old) (state_of self.new)) }
    {
        let mode = self.journal.mode(replica);
        if mode == Mode::Err {
            return Err(NotThis::Mode(mode));
        }
        let last = self.journal.last_count(stream, replica);
        if count <= last {
            return Err(NotThis::Count(last));
        }
        self.mark_fault(stream, replica, count);
        Ok(())
    }

    fn mark_fault(&mut self, stream: u8, replica: u8, count: u64)
        requires { marks_of_fall self.old.rebuild replica ≤ self.old.journal.spare }
        ensures { state_of self.new ≡ faulted (state_of self.old) stream replica count }
    {
        self.journal.push_reserved(Entry::Mark(Mark::Fault {
            stream,
            replica,
            count,
        }));
        self.abort_behind(replica);
    }

    /// Behind the mark in which a replica went to ERR: the rebuild that is open is aborted where the replica is its
    /// source or its target. It takes no memory.
    pub(crate) fn abort_behind(&mut self, replica: u8)
        requires { marks_of_fall self.old.rebuild replica ≤ self.old.journal.spare + 1 }
        ensures { state_of self.new ≡ behind_fall (state_of self.old) replica }
    {
        let Some(rebuild) = &self.rebuild else {
            return;
        };
        let target = rebuild.target;
        if replica != target && replica != rebuild.source {
            return;
        }
        self.push_aborted(target);
    }

    /// The rebuild of that replica is aborted, in the mark that stands next: its place. It takes no memory.
    pub(crate) fn push_aborted(&mut self, target: u8) -> u64
        requires { 0 < self.old.journal.spare }
        ensures place { result ≡ length self.old.journal.entries }
        ensures state { state_of self.new ≡ aborted (state_of self.old) target }
    {
        let place = self.journal.len();
        self.rebuild = None;
        self.ended = Some(EndedRebuild { target, place });
        self.journal
            .push_reserved(Entry::Mark(Mark::Aborted(target)));
        place
    }
}
