use crate::in_turn::{fold_in, snapshot_in};
use crate::passing::{ended_in, pass_answered, pass_if_ended, pass_turn, pass_whole};
use crate::steps::Steps;
use outer_traits::Gate;
use std::alloc::{AllocError, Global};
use std::sync::Wait;
use stream_steps::CommandSteps;
use volume_core::{Call, Command, Mode, NotThis, Reply, TicketNumber};
use volume_maint::{AdmitWhole, LayerName, MayStart, NextPart, WholeOp};
use world_holder::Holder;

impl<H: Holder, G: Gate> CommandSteps for Steps<H, G> {
    ghost use Rattle.std.specs.Prelude.{ℕ, Bool};
    ghost use Rattle.volume_core.specs.State.{modes_in, gave_up_at};
    ghost use Rattle.volume_maint.specs.Answers.{WantsFold};
    ghost use Rattle.world_holder.specs.View.{view};
    ghost use Rattle.world_steps.specs.Rebuild.{IsBegunIn, IsUnbegun};
    ghost use Rattle.world_steps.specs.Seen.{seen_of, MayGoIn};

    ghost mine = { λ a. view H.alone a.stream (H.seen a.holder) };

    ghost modes = { λ a. modes_in (H.seen a.holder) };

    ghost seen = { λ a. seen_of (H.seen a.holder) };

    ghost wants_fold = { λ a r p page. WantsFold (H.seen a.holder) r p page };

    ghost may_go = { λ a f. MayGoIn (H.seen a.holder) f };

    ghost unbegun = { λ a. IsUnbegun (H.seen a.holder) };

    ghost begun = { λ a past source r. IsBegunIn a.stream (H.seen a.holder) past source r };

    // What no step of the holder changes, the stream, and whether it gave a command up in the World that was seen last.
    ghost Home = { H.Home × ℕ × Bool };

    ghost home = { λ a. (H.home a.holder, a.stream, gave_up_at (H.seen a.holder).gave_up a.stream) };

    ghost ready = { λ a. H.rests a.holder a.stream };

    fn answer_at_once<R: Wait>(
        &mut self,
        rt: &R,
        alloc: Global,
        command: &Command,
    ) -> Result<u64, AllocError> {
        let call = Call::Command(*command);
        let mut world = self.holder.take(rt, self.stream);
        let answer = world.answer_now(alloc, self.stream, &call);
        self.holder.put(self.stream, world);
        pass_answered(&self.gate, self.stream, &mut self.ended, &answer);
        answer
    }

    fn mode_of<R: Wait>(&mut self, rt: &R, replica: u8) -> Mode {
        let world = self.holder.take(rt, self.stream);
        let mode = world.mode(replica);
        self.holder.put(self.stream, world);
        mode
    }

    fn line_failed<R: Wait>(&mut self, rt: &R, replica: u8, count: u64) -> Result<(), NotThis> {
        let mut world = self.holder.take(rt, self.stream);
        let answer = world.fault(self.stream, replica, count);
        self.holder.put(self.stream, world);
        answer
    }

    fn page_count<R: Wait>(&mut self, rt: &R) -> u32 {
        let world = self.holder.take(rt, self.stream);
        let count = world.size.page_count();
        self.holder.put(self.stream, world);
        count
    }

    fn enrol_maint<R: Wait>(
        &mut self,
        rt: &R,
        alloc: Global,
        command: &Command,
    ) -> Result<TicketNumber, AllocError> {
        let _ = alloc;
        let mut world = self.holder.take(rt, self.stream);
        let answer = volume_maint::enrol_maint(&mut world, self.stream, command);
        self.holder.put(self.stream, world);
        answer
    }

    fn admit_maint<R: Wait>(&mut self, rt: &R, t: TicketNumber) -> MayStart {
        let mut world = self.holder.take(rt, self.stream);
        let answer = volume_maint::admit_maint(&mut world, t);
        self.holder.put(self.stream, world);
        pass_turn(&self.gate, self.stream, &answer);
        answer
    }

    fn end_maint<R: Wait>(
        &mut self,
        rt: &R,
        t: TicketNumber,
        reply: Reply,
    ) -> Result<u64, NotThis> {
        let mut world = self.holder.take(rt, self.stream);
        let answer = volume_maint::end_maint(&mut world, t, reply);
        self.holder.put(self.stream, world);
        pass_answered(&self.gate, self.stream, &mut self.ended, &answer);
        answer
    }

    fn abandon<R: Wait>(&mut self, rt: &R, t: TicketNumber) {
        let mut world = self.holder.take(rt, self.stream);
        volume_maint::abandon(&mut world, t);
        self.holder.put(self.stream, world);
    }

    fn enrol_snapshot<R: Wait>(
        &mut self,
        rt: &R,
        alloc: Global,
        op: &WholeOp,
    ) -> Result<TicketNumber, AllocError> {
        let mut world = self.holder.take(rt, self.stream);
        let answer = snapshot_in(&mut world, alloc, self.stream, op);
        self.holder.put(self.stream, world);
        answer
    }

    fn enrol_whole<R: Wait>(
        &mut self,
        rt: &R,
        alloc: Global,
        t: TicketNumber,
        op: &WholeOp,
    ) -> Result<Option<TicketNumber>, AllocError> {
        let _ = t;
        let mut world = self.holder.take(rt, self.stream);
        let answer = volume_maint::enrol_whole(&mut world, alloc, self.stream, op);
        self.holder.put(self.stream, world);
        answer
    }

    fn admit_whole<R: Wait>(
        &mut self,
        rt: &R,
        alloc: Global,
        t: TicketNumber,
    ) -> Result<AdmitWhole, AllocError> {
        let mut world = self.holder.take(rt, self.stream);
        let answer = volume_maint::admit_whole(&mut world, alloc, t);
        let ended = ended_in(&world, self.stream);
        self.holder.put(self.stream, world);
        pass_if_ended(&self.gate, self.stream, &mut self.ended, ended);
        pass_whole(&self.gate, self.stream, &answer);
        answer
    }

    fn withdraw_whole<R: Wait>(&mut self, rt: &R, t: TicketNumber) {
        let mut world = self.holder.take(rt, self.stream);
        volume_maint::withdraw_whole(&mut world, t);
        self.holder.put(self.stream, world);
    }

    fn part<R: Wait>(&mut self, rt: &R, t: TicketNumber, replica: u8) -> Result<(), NotThis> {
        let mut world = self.holder.take(rt, self.stream);
        let answer = volume_maint::part(&mut world, t, replica);
        self.holder.put(self.stream, world);
        answer
    }

    fn ack_whole<R: Wait>(&mut self, rt: &R, t: TicketNumber, replica: u8) -> Result<(), NotThis> {
        let mut world = self.holder.take(rt, self.stream);
        let answer = volume_maint::ack_whole(&mut world, t, replica);
        self.holder.put(self.stream, world);
        answer
    }

    fn complete_whole<R: Wait>(&mut self, rt: &R, t: TicketNumber) -> Result<u64, NotThis> {
        let mut world = self.holder.take(rt, self.stream);
        let answer = volume_maint::complete_whole(&mut world, t);
        let ended = ended_in(&world, self.stream);
        self.holder.put(self.stream, world);
        pass_if_ended(&self.gate, self.stream, &mut self.ended, ended);
        answer
    }

    fn fold_next<R: Wait>(&mut self, rt: &R, t: TicketNumber) -> NextPart {
        let _ = t;
        let world = self.holder.take(rt, self.stream);
        let next = volume_maint::fold_next(&world);
        self.holder.put(self.stream, world);
        next
    }

    fn fold_wanted<R: Wait>(&mut self, rt: &R, replica: u8, parent: &LayerName, page: u32) -> bool {
        let world = self.holder.take(rt, self.stream);
        let wanted = volume_maint::fold_wanted(&world, replica, parent, page);
        self.holder.put(self.stream, world);
        wanted
    }

    fn fold_page<R: Wait>(
        &mut self,
        rt: &R,
        t: TicketNumber,
        replica: u8,
        parent: &LayerName,
        page: u32,
    ) -> Result<(), NotThis> {
        let _ = t;
        let mut world = self.holder.take(rt, self.stream);
        let answer = fold_in(&mut world, replica, parent, page);
        self.holder.put(self.stream, world);
        answer
    }
}
