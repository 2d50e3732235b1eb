use crate::in_turn::{ack_in, next_up, told_with};
use crate::passing::{pass_acked, pass_admitted, pass_answered, pass_enrolled};
use crate::steps::Steps;
use outer_traits::Gate;
use std::alloc::{AllocError, Global};
use std::sync::Wait;
use stream_steps::{ClientSteps, OnReplica, WithSource};
use volume_core::{Admit, Blocks, Call, Enrolled, NotThis, TicketNumber};
use world_holder::Holder;

impl<H: Holder, G: Gate> ClientSteps for Steps<H, G> {
    ghost use Rattle.std.specs.Prelude.{ℕ};
    ghost use Rattle.volume_core.specs.State.{modes_in};
    ghost use Rattle.world_holder.specs.View.{view, IsFree};
    ghost use Rattle.world_steps.specs.Seen.{seen_of};

    ghost mine = { λ a. view H.alone a.stream (H.seen a.holder) };

    ghost modes = { λ a. modes_in (H.seen a.holder) };

    ghost seen = { λ a. seen_of (H.seen a.holder) };

    ghost Home = { H.Home × ℕ };

    ghost home = { λ a. (H.home a.holder, a.stream) };

    ghost ready = { λ a. H.rests a.holder a.stream × IsFree a.stream (H.seen a.holder) };

    fn answer_now<R: Wait>(
        &mut self,
        rt: &R,
        alloc: Global,
        call: &Call,
    ) -> Result<u64, AllocError> {
        let mut world = self.holder.take(rt, self.stream);
        let answer = world.answer_now(alloc, self.stream, call);
        self.holder.put(self.stream, world);
        pass_answered(&self.gate, self.stream, &mut self.ended, &answer);
        answer
    }

    fn enrol<R: Wait>(
        &mut self,
        rt: &R,
        alloc: Global,
        call: &Call,
    ) -> Result<Enrolled, AllocError> {
        let mut world = self.holder.take(rt, self.stream);
        // What the largest size is, a proof learns here.
        let _size = world.size.bytes();
        let answer = world.enrol(alloc, self.stream, call);
        self.holder.put(self.stream, world);
        pass_enrolled(&self.gate, self.stream, &mut self.ended, &answer);
        answer
    }

    fn admit<R: Wait>(
        &mut self,
        rt: &R,
        alloc: Global,
        t: TicketNumber,
    ) -> Result<WithSource<Admit>, AllocError> {
        let mut world = self.holder.take(rt, self.stream);
        let answer = world.admit(alloc, t);
        let source = world.journal.source();
        self.holder.put(self.stream, world);
        pass_admitted(&self.gate, self.stream, &mut self.ended, &answer);
        told_with(answer, source)
    }

    fn withdraw<R: Wait>(&mut self, rt: &R, t: TicketNumber) {
        let mut world = self.holder.take(rt, self.stream);
        world.withdraw(t);
        self.holder.put(self.stream, world);
    }

    fn source<R: Wait>(&mut self, rt: &R) -> Option<u8> {
        let world = self.holder.take(rt, self.stream);
        let source = world.journal.source();
        self.holder.put(self.stream, world);
        source
    }

    fn apply_write<R: Wait>(
        &mut self,
        rt: &R,
        t: TicketNumber,
        replica: u8,
        blocks: &mut Blocks,
    ) -> OnReplica<Result<(), NotThis>> {
        let mut world = self.holder.take(rt, self.stream);
        let answer = world.apply_write(t, replica, blocks);
        let next = next_up(&world, replica);
        self.holder.put(self.stream, world);
        OnReplica { answer, next }
    }

    fn apply_read<R: Wait>(
        &mut self,
        rt: &R,
        t: TicketNumber,
        replica: u8,
        into: &mut [u8],
    ) -> Result<(), NotThis> {
        let mut world = self.holder.take(rt, self.stream);
        let answer = world.apply_read(t, replica, into);
        self.holder.put(self.stream, world);
        answer
    }

    fn ack<R: Wait>(
        &mut self,
        rt: &R,
        t: TicketNumber,
        replica: u8,
    ) -> OnReplica<Result<bool, NotThis>> {
        let mut world = self.holder.take(rt, self.stream);
        let answer = ack_in(&mut world, t, replica);
        let next = next_up(&world, replica);
        self.holder.put(self.stream, world);
        pass_acked(&self.gate, self.stream, &mut self.ended, &answer);
        OnReplica { answer, next }
    }

    fn fault<R: Wait>(
        &mut self,
        rt: &R,
        replica: u8,
        count: u64,
    ) -> OnReplica<Result<(), NotThis>> {
        let mut world = self.holder.take(rt, self.stream);
        let answer = world.fault(self.stream, replica, count);
        let next = next_up(&world, replica);
        self.holder.put(self.stream, world);
        OnReplica { answer, next }
    }

    fn complete<R: Wait>(&mut self, rt: &R, t: TicketNumber) -> Result<u64, NotThis> {
        let mut world = self.holder.take(rt, self.stream);
        let answer = world.complete(t);
        self.holder.put(self.stream, world);
        pass_answered(&self.gate, self.stream, &mut self.ended, &answer);
        answer
    }
}
