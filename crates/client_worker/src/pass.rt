//! A frame is carried to a replica, and a replica whose line fails has failed.

ghost use Rattle.std.specs.Prelude.{◌≡◌, ◌<◌, ◌≤◌, length, map, vec_capacity, slice_index_or, OnOk, IfErr};
ghost use Rattle.volume_model.specs.Faults.{last_count};
ghost use Rattle.stream_steps.specs.Mine.{OwnCall, IsOwn, entries_in};
ghost use Rattle.stream_steps.specs.Steps.{HasStarted};
ghost use Rattle.client_worker.specs.Exchanges.{told_in};
ghost use Rattle.client_worker.specs.Asking.{Arrives, LacksReply, HasTaken, Falls, WasAsked};
ghost use Rattle.client_worker.specs.After.{after_ack};
ghost use Rattle.client_worker.specs.Working.{Passes, Stays, StaysHome};

use crate::carrier::Carrier;
use crate::channel::carry;
use crate::opened::AfterPart;
use outer_traits::Line;
use range_turns::TicketNumber;
use std::sync::Wait;
use step_answers::NotThis;
use stream_steps::{ClientSteps, OnReplica};

impl<C: ClientSteps + Drop, L: Line + Drop> Carrier<C, L> {
    /// The line to a replica has failed: the core is told its count, and says which replica is next.
    fn tell_fault<R: Wait>(&mut self, rt: &R, replica: u8) -> Option<u8>
        requires line { replica < length self.old.channels }
        // Its count is above that of its last mark, so that the core has to take it.
        requires above { last_count (C.mine self.old.steps).stream replica (entries_in (C.mine self.old.steps).entries)
            < slice_index_or (map (λ c. L.count c.line) self.old.channels) replica 0 }
        ensures stays { StaysHome C.home self.old self.new }
        ensures falls { Falls (C.modes self.new.steps) replica (C.mine self.old.steps)
            (C.mine self.new.steps) result }
    {
        let count = self.channels[replica as usize].line.faults();
        self.steps.fault(rt, replica, count).next
    }

    /// Carries a frame to a replica, and says whether it came through: where it did not, the replica has failed, and
    /// which is next is said.
    pub(crate) fn pass<R: Wait>(
        &mut self,
        rt: &R,
        replica: u8,
        frame: &[u8],
        room: &mut Vec<u8>,
    ) -> Result<(), Option<u8>>
        requires line { replica < length self.old.channels }
        requires frame { Arrives frame.now (vec_capacity room.old) }
        ensures stays { Stays C.home L.ends self.old self.new }
        ensures room { vec_capacity room.old ≤ vec_capacity room.new }
        ensures came { OnOk result (Passes L.carried replica frame.now self.old self.new) }
        ensures falls { IfErr result (Falls (C.modes self.new.steps) replica (C.mine self.old.steps)
            (C.mine self.new.steps)) }
    {
        if carry(&mut self.channels, replica, frame, room) {
            return Ok(());
        }
        Err(self.tell_fault(rt, replica))
    }

    /// Carries the reply of a replica that had its step of the open call, which is thereby acknowledged, and says whether
    /// the call is answered now, and else which replica is next.
    pub(crate) fn reply_with<R: Wait>(
        &mut self,
        rt: &R,
        t: TicketNumber,
        replica: u8,
        reply: &[u8],
        room: &mut Vec<u8>,
    ) -> AfterPart
        requires line { replica < length self.old.channels }
        requires frame { Arrives reply.now (vec_capacity room.old) }
        requires own { (o : OwnCall) × IsOwn t o (C.mine self.old.steps) × HasStarted o × HasTaken o replica
            × LacksReply o (told_in (map (λ c. L.carried c.line) self.old.channels) replica) reply.now }
        ensures stays { Stays C.home L.ends self.old self.new }
        ensures room { vec_capacity room.old ≤ vec_capacity room.new }
        ensures asked { WasAsked (C.modes self.new.steps) replica (C.mine self.old.steps)
            (C.mine self.new.steps) result }
    {
        if let Err(next) = self.pass(rt, replica, reply, room) {
            return AfterPart::GoesOn(next);
        }
        let acked = self.steps.ack(rt, t, replica);
        after(acked)
    }
}

/// What an acknowledgement comes to.
fn after(acked: OnReplica<Result<bool, NotThis>>) -> AfterPart
    ensures { result ≡ after_ack acked.answer acked.next }
{
    match acked.answer {
        Ok(true) => AfterPart::Answered,
        Ok(false) | Err(_) => AfterPart::GoesOn(acked.next),
    }
}
