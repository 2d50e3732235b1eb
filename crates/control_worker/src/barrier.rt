//! The barrier of an add, with which its rebuild begins.

ghost use Rattle.std.specs.Prelude.{◌≡◌, ℕ, ◌<◌, List, [], ◌∷◌, length, true, false, IfOk, OnErr, IfSome};
ghost use Rattle.step_answers.specs.declared.whole_op.WholeOp.{WholeOp};
ghost use Rattle.stream_steps.specs.Mine.{OwnCall, with_running};
ghost use Rattle.stream_steps.specs.Maint.{EnrolsUnder, HasWhole};
ghost use Rattle.stream_steps.specs.Add.{HasAdd, IsFromOther};
ghost use Rattle.client_worker.specs.Working.{Stays};
ghost use Rattle.control_worker.specs.Whole.{IsWhole};
ghost use Rattle.control_worker.specs.Adding.{IsSourceOf, PassesTo, StartsBy};

use crate::carrier::Carrier;
use crate::parts::Whole;
use crate::rooms::Rooms;
use client_worker::Line;
use std::alloc::{AllocError, Global};
use std::sync::Wait;
use step_answers::WholeOp;
use stream_steps::{AddSteps, Added, AdmitBarrier, TicketNumber};

impl<C: AddSteps + Drop, L: Line + Drop> Carrier<C, L> {
    /// Takes the add that has the turn past its barrier, and gives the source of its rebuild. None: it is refused, and
    /// answered so. Out of memory leaves it the turn, and nothing begun.
    pub(crate) fn pass_barrier<R: Wait>(
        &mut self,
        rt: &R,
        alloc: Global,
        t: TicketNumber,
        replica: u8,
        rooms: &mut Rooms,
    ) -> Result<Option<u8>, AllocError>
        requires there { replica < (C.mine self.old.steps).replicas }
        requires turn { (o : OwnCall) × HasAdd t replica o (C.mine self.old.steps) }
        requires unbegun { C.unbegun self.old.steps }
        ensures stays { Stays C.home L.ends self.old self.new }
        ensures source { IfOk result (IsSourceOf (length self.old.channels) replica) }
        ensures begun { IfOk result (λ s. IfSome s (λ source. C.begun self.new.steps true source replica)) }
        ensures ok { IfOk result (λ s. (o : OwnCall) → HasAdd t replica o (C.mine self.old.steps)
            → PassesTo s replica o (C.mine self.old.steps) (C.mine self.new.steps)) }
        ensures err { OnErr result ((o : OwnCall) → HasAdd t replica o (C.mine self.old.steps)
            → C.mine self.new.steps ≡ with_running (C.mine self.old.steps) (o ∷ [])) }
    {
        // A proof learns here that there is a line to each replica.
        let _ = &self.channels;
        let op = WholeOp::Barrier(replica);
        let ticket = self.enrol_barrier(rt, alloc, t, &op)?;
        let Some(begun) = self.start_barrier(rt, alloc, ticket)? else {
            return Ok(None);
        };
        self.carry_barrier(rt, &Whole { ticket, op }, &begun.name, rooms);
        Ok(Some(begun.source))
    }

    /// Puts the barrier behind all calls.
    fn enrol_barrier<R: Wait>(
        &mut self,
        rt: &R,
        alloc: Global,
        t: TicketNumber,
        op: &WholeOp,
    ) -> Result<TicketNumber, AllocError>
        requires turn { (r : ℕ) × (o : OwnCall) × (op.now ≡ WholeOp.Barrier r) × HasAdd t r o (C.mine self.old.steps) }
        ensures stays { Stays C.home L.ends self.old self.new }
        ensures ok { IfOk result (λ n. (r : ℕ) (o : OwnCall) → op.now ≡ WholeOp.Barrier r
            → HasAdd t r o (C.mine self.old.steps)
            → EnrolsUnder n op.now o (C.mine self.old.steps) (C.mine self.new.steps)) }
        ensures unbegun { C.unbegun self.old.steps → C.unbegun self.new.steps }
        ensures err { OnErr result (C.mine self.new.steps ≡ C.mine self.old.steps) }
    {
        match self.steps.enrol_whole(rt, alloc, t, op)? {
            Some(barrier) => Ok(barrier),
            // Only a part of a purge may be one that cannot go.
            None => unreachable!(),
        }
    }

    /// Waits until the barrier starts, and tells how its rebuild began. None: the add is refused, and answered so. Out
    /// of memory takes it back.
    fn start_barrier<R: Wait>(
        &mut self,
        rt: &R,
        alloc: Global,
        t: TicketNumber,
    ) -> Result<Option<Added>, AllocError>
        requires waits { (r : ℕ) × IsWhole false t (WholeOp.Barrier r) (C.mine self.old.steps)
            × (r < (C.mine self.old.steps).replicas) }
        requires unbegun { C.unbegun self.old.steps }
        ensures stays { Stays C.home L.ends self.old self.new }
        ensures lines { self.new.channels ≡ self.old.channels }
        ensures ok { IfOk result (λ added. (r : ℕ) (turn : List OwnCall) (o : OwnCall)
            → HasWhole t (WholeOp.Barrier r) turn o (C.mine self.old.steps)
            → StartsBy added r turn o (C.mine self.old.steps) (C.mine self.new.steps)) }
        ensures begun { IfOk result (λ added. IfSome added (λ by. (r : ℕ) (turn : List OwnCall) (o : OwnCall)
            → HasWhole t (WholeOp.Barrier r) turn o (C.mine self.old.steps)
            → IsFromOther by.source r (C.mine self.old.steps).replicas (C.begun self.new.steps false))) }
        ensures err { OnErr result ((r : ℕ) (turn : List OwnCall) (o : OwnCall)
            → HasWhole t (WholeOp.Barrier r) turn o (C.mine self.old.steps)
            → C.mine self.new.steps ≡ with_running (C.mine self.old.steps) turn) }
    {
        for _ in rt.forever() {
            match self.steps.admit_barrier(rt, alloc, t) {
                Ok(AdmitBarrier::Go(added)) => return Ok(Some(added)),
                Ok(AdmitBarrier::Refused) => return Ok(None),
                Ok(AdmitBarrier::After(_)) => {}
                // The replica is there, and no rebuild was begun of the add.
                Ok(AdmitBarrier::Never) => unreachable!(),
                Err(error) => {
                    self.steps.withdraw_whole(rt, t);
                    return Err(error);
                }
            }
        }
        unreachable!()
    }
}
