ghost use Rattle.std.specs.Prelude.{◌≡◌, ◌+◌, ◌<◌, ◌≤◌, ◌^◌, length, slice_get, Some, None, OnOk, OnErr, MatchOption};
ghost use Rattle.volume_model.specs.Modes.{mode_of};
ghost use Rattle.packed_entries.specs.Plain.{data_in};
ghost use Rattle.packed_entries.specs.View.{entry_seen};
ghost use Rattle.volume_core.specs.Data.{owed_data};
ghost use Rattle.volume_core.specs.State.{state_of, modes_in, index_at};
ghost use Rattle.volume_core.specs.Steps.{with_place, with_data, answered};

use journal_book::{Answer, Call, Entry, EntryView, Journal, Mode, Reply, Shown};
use open_calls::{MaintCall, OpenCall, Whole};
use open_rebuild::Rebuilding;
use range_turns::Turns;
use replica_node::{ReplicaNode, VolumeSize};
use std::alloc::AllocError;

/// A volume of several replicas.
#[derive(Drop)]
pub struct World {
    pub size: VolumeSize,
    /// The replica that showed how the volume began.
    pub first: Shown<ReplicaNode>,
    pub nodes: Vec<ReplicaNode>,
    pub turns: Turns,
    /// One for each ticket, in the same order.
    pub calls: Vec<OpenCall>,
    /// The call on the whole volume that has started.
    pub whole: Option<Whole>,
    /// The tickets of the maintenance turn: each waits for all before it, and the first has the turn once it has started.
    pub maint: Turns,
    /// The command of each of these, in the same order.
    pub commands: Vec<MaintCall>,
    /// The rebuild that is open.
    pub rebuild: Option<Rebuilding>,
    /// The rebuild of the command that has the turn, where it was aborted.
    pub ended: Option<EndedRebuild>,
    /// For each stream, whether it gave a command up that had the turn, for want of memory.
    pub gave_up: Vec<bool>,
    /// How many calls of each stream were answered.
    pub indices: Vec<u64>,
    pub journal: Journal,
}

/// A rebuild that was aborted: of which replica, and where its mark stands in the journal.
#[derive(Clone, Copy, Debug, PartialEq, Eq)]
pub struct EndedRebuild {
    pub target: u8,
    pub place: u64,
}

impl World {
    /// The entry at a place, once it is there.
    pub fn after(&self, place: u64) -> Option<EntryView<'_>>
        ensures { MatchOption result (length self.now.journal.entries ≤ place)
            (λ entry. slice_get self.now.journal.entries place ≡ Some (entry_seen entry)) }
    {
        if place < self.journal.len() {
            Some(self.journal.entry(place))
        } else {
            None
        }
    }

    /// The mode of a replica; one that is not there has failed.
    pub fn mode(&self, replica: u8) -> Mode
        ensures { result ≡ mode_of (modes_in (state_of self.now)) replica }
    {
        self.journal.mode(replica)
    }

    /// Makes a place in the journal beyond those that there are.
    pub(crate) fn make_place(&mut self) -> Result<(), AllocError>
        ensures ok { OnOk result (state_of self.new ≡ with_place (state_of self.old)) }
        ensures err { OnErr result (state_of self.new ≡ state_of self.old) }
    {
        self.journal.reserve(self.journal.spare() + 1)
    }

    /// For how many bytes the open calls need place in the journal.
    fn owed_data(&self) -> u64
        requires { owed_data self.now.calls.items ≤ self.now.journal.spare_data }
        ensures value { result ≡ owed_data self.now.calls.items }
        ensures most { result < 2 ^ 32 }
    {
        // How many these can be, a proof learns here.
        let _most = self.journal.spare_data();
        let mut owed = 0;
        for call in &self.calls {
            owed += (call.bytes.len() + call.buffer.as_slice().len()) as u64;
        }
        owed
    }

    /// Makes place in the journal for so many bytes beyond those that the open calls need: what they leave, since packed they
    /// are fewer, counts for it too, or it would grow with each call.
    pub(crate) fn make_data(&mut self, count: u32) -> Result<(), AllocError>
        requires { owed_data self.old.calls.items ≤ self.old.journal.spare_data }
        ensures ok { OnOk result (state_of self.new ≡ with_data (state_of self.old) count) }
        ensures same { self.new ≡ record self.old { journal = self.new.journal } }
        ensures err { OnErr result (state_of self.new ≡ state_of self.old) }
    {
        let owed = self.owed_data();
        self.journal.reserve_data(owed + u64::from(count))
    }

    /// Makes a place in the journal beyond those that there are, and place for so many bytes, or neither.
    pub(crate) fn make_place_for(&mut self, count: u32) -> Result<(), AllocError>
        requires { owed_data self.old.calls.items ≤ self.old.journal.spare_data }
        ensures ok { OnOk result (state_of self.new ≡ with_data (with_place (state_of self.old)) count) }
        ensures err { OnErr result (state_of self.new ≡ state_of self.old) }
    {
        let owed = self.owed_data();
        let spare = self.journal.spare();
        self.journal
            .reserve_both(spare + 1, owed + u64::from(count))
    }

    /// The answer of a stream's next call, in a place that was made before. It is no step, but a part of those that end
    /// a call, here and in volume_maint, and for them alone: whether the call may be answered so, they know. It takes
    /// no memory.
    pub fn push_answer(&mut self, stream: u8, saw: u64, call: Call, reply: Reply) -> u64
        requires stream { stream < length self.old.indices.items }
        requires few { index_at self.old.indices.items stream ≤ length self.old.journal.entries }
        requires spare { 0 < self.old.journal.spare }
        requires spare_data { length (data_in call reply) ≤ self.old.journal.spare_data }
        ensures place { result ≡ length self.old.journal.entries }
        ensures state { state_of self.new ≡ answered (state_of self.old) stream saw call reply }
    {
        let place = self.journal.len();
        let index = self.indices[stream as usize];
        self.indices[stream as usize] = index + 1;
        self.journal.push_reserved(Entry::Answer(Answer {
            call,
            reply,
            index,
            saw,
            stream,
        }));
        place
    }
}
