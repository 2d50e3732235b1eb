use crate::passing::{ended_in, pass_barrier, pass_if, pass_if_ended};
use crate::rebuild::{barrier_in, end_in, end_of, fall_in, next_in, out_in, promote_in, put_in};
use crate::steps::Steps;
use outer_traits::Gate;
use std::alloc::{AllocError, Global};
use std::sync::Wait;
use stream_steps::{AddSteps, AdmitBarrier, NextPage, Page, PageIn, PageOut, PageRef};
use volume_core::TicketNumber;
use world_holder::Holder;

impl<H: Holder, G: Gate> AddSteps for Steps<H, G> {
    ghost use Rattle.std.specs.Prelude.{ℕ};
    ghost use Rattle.sparse_image.specs.Image.{Table};
    ghost use Rattle.vol_units.specs.declared.page_ref.PageRef.{PageRef};
    ghost use Rattle.world_steps.specs.Rebuild.{left_now, IsPageIn, AwaitsAt, IsEndedAt};

    ghost left = { λ a. left_now (H.seen a.holder).rebuild };

    ghost awaits = { λ a page. AwaitsAt (H.seen a.holder).rebuild (H.seen a.holder).ended page };

    ghost is_page = { λ a page table. IsPageIn (H.seen a.holder) page table };

    ghost is_aborted = { λ a place. IsEndedAt (H.seen a.holder) place };

    fn admit_barrier<R: Wait>(
        &mut self,
        rt: &R,
        alloc: Global,
        t: TicketNumber,
    ) -> Result<AdmitBarrier, AllocError> {
        let mut world = self.holder.take(rt, self.stream);
        let answer = barrier_in(&mut world, alloc, t);
        let ended = ended_in(&world, self.stream);
        self.holder.put(self.stream, world);
        pass_if_ended(&self.gate, self.stream, &mut self.ended, ended);
        pass_barrier(&self.gate, self.stream, &answer);
        answer
    }

    fn copy_next<R: Wait>(&mut self, rt: &R, t: TicketNumber) -> NextPage {
        let _ = t;
        let world = self.holder.take(rt, self.stream);
        let next = next_in(&world);
        self.holder.put(self.stream, world);
        next
    }

    fn copy_out<R: Wait>(
        &mut self,
        rt: &R,
        t: TicketNumber,
        page: &PageRef,
        into: &mut Page,
    ) -> PageOut {
        let _ = t;
        let world = self.holder.take(rt, self.stream);
        let out = out_in(&world, page, into);
        self.holder.put(self.stream, world);
        out
    }

    fn copy_in<R: Wait>(
        &mut self,
        rt: &R,
        t: TicketNumber,
        page: &PageRef,
        with: &mut Page,
    ) -> PageIn {
        let _ = t;
        let mut world = self.holder.take(rt, self.stream);
        let answer = put_in(&mut world, page, with);
        self.holder.put(self.stream, world);
        answer
    }

    fn aborted<R: Wait>(&mut self, rt: &R, t: TicketNumber) -> Option<u64> {
        let _ = t;
        let world = self.holder.take(rt, self.stream);
        let end = end_of(&world);
        self.holder.put(self.stream, world);
        end
    }

    fn copy_fault<R: Wait>(&mut self, rt: &R, t: TicketNumber, replica: u8, count: u64) -> u64 {
        let _ = t;
        let mut world = self.holder.take(rt, self.stream);
        let place = fall_in(&mut world, self.stream, replica, count);
        self.holder.put(self.stream, world);
        place
    }

    fn promote<R: Wait>(&mut self, rt: &R, t: TicketNumber) -> Option<u64> {
        let mut world = self.holder.take(rt, self.stream);
        let answer = promote_in(&mut world, t);
        self.holder.put(self.stream, world);
        pass_if(&self.gate, self.stream, &mut self.ended, answer.is_some());
        answer
    }

    fn end_aborted<R: Wait>(&mut self, rt: &R, t: TicketNumber, place: u64) -> Option<u64> {
        let mut world = self.holder.take(rt, self.stream);
        let answer = end_in(&mut world, t, place);
        self.holder.put(self.stream, world);
        pass_if(&self.gate, self.stream, &mut self.ended, answer.is_some());
        answer
    }

    fn abandon_add<R: Wait>(&mut self, rt: &R, t: TicketNumber) {
        let mut world = self.holder.take(rt, self.stream);
        let before = ended_in(&world, self.stream);
        volume_maint::abandon(&mut world, t);
        let answered = ended_in(&world, self.stream) != before;
        self.holder.put(self.stream, world);
        pass_if(&self.gate, self.stream, &mut self.ended, answered);
    }
}
