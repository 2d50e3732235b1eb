//! How an open call starts, and how it ends.

ghost use Rattle.std.specs.Prelude.{◌≡◌, [], true, false, length, IfOk, IfSome, OnErr};
ghost use Rattle.stream_steps.specs.Mine.{OwnCall, IsOwn, with_running};
ghost use Rattle.stream_steps.specs.Steps.{Answers, HasNotStarted, HasStarted, IsReadCall};
ghost use Rattle.stream_steps.specs.Seen.{TellsSource};
ghost use Rattle.client_worker.specs.Ends.{NoneAcked, StartsOr};
ghost use Rattle.client_worker.specs.Working.{StaysHome};

use crate::carrier::Carrier;
use outer_traits::Line;
use range_turns::TicketNumber;
use std::alloc::{AllocError, Global};
use std::sync::Wait;
use step_answers::{Admit, Job};
use stream_steps::{ClientSteps, WithSource};

impl<C: ClientSteps + Drop, L: Line + Drop> Carrier<C, L> {
    /// Waits until the open call starts, or is answered that there is no replica. Where it starts, the lowest replica that
    /// is read is told. Out of memory takes it back.
    pub(crate) fn start<R: Wait>(
        &mut self,
        rt: &R,
        alloc: Global,
        t: TicketNumber,
    ) -> Result<Option<WithSource<Job>>, AllocError>
        requires waits { (o : OwnCall) × IsOwn t o (C.mine self.old.steps) × HasNotStarted o }
        ensures stays { StaysHome C.home self.old self.new }
        ensures ok { IfOk result (λ start. (o : OwnCall) → IsOwn t o (C.mine self.old.steps)
            → StartsOr o start (C.mine self.old.steps) (C.mine self.new.steps)) }
        ensures source { IfOk result (λ start. IfSome start (λ s. TellsSource (C.modes self.new.steps)
            (length self.old.channels) s.source)) }
        ensures err { OnErr result (C.mine self.new.steps ≡ with_running (C.mine self.old.steps) []) }
    {
        for _ in rt.forever() {
            match self.steps.admit(rt, alloc, t) {
                Ok(WithSource { answer, source }) => match answer {
                    Admit::Go(answer) => return Ok(Some(WithSource { answer, source })),
                    Admit::NoReplica(_) => return Ok(None),
                    Admit::After(_) => {}
                },
                Err(error) => {
                    self.steps.withdraw(rt, t);
                    return Err(error);
                }
            }
        }
        unreachable!()
    }

    /// Whether the open call is answered now.
    pub(crate) fn finish<R: Wait>(&mut self, rt: &R, t: TicketNumber) -> bool
        requires own { (o : OwnCall) × IsOwn t o (C.mine self.old.steps) × HasStarted o }
        ensures stays { StaysHome C.home self.old self.new }
        ensures done { result ≡ true → (o : OwnCall) → IsOwn t o (C.mine self.old.steps)
            → Answers o (C.mine self.old.steps) (C.mine self.new.steps) }
        ensures open { result ≡ false → C.mine self.new.steps ≡ C.mine self.old.steps }
        // A read that has to go on was acknowledged by nobody.
        ensures none { result ≡ false → ((o : OwnCall) × IsOwn t o (C.mine self.old.steps) × IsReadCall o.call)
            → NoneAcked (C.mine self.new.steps) }
    {
        self.steps.complete(rt, t).is_ok()
    }

    /// The lowest replica that is read and written.
    pub(crate) fn source<R: Wait>(&mut self, rt: &R) -> Option<u8>
        ensures stays { StaysHome C.home self.old self.new }
        ensures same { C.mine self.new.steps ≡ C.mine self.old.steps }
        ensures is { TellsSource (C.modes self.new.steps) (length self.old.channels) result }
    {
        self.steps.source(rt)
    }

    /// Waits until the open call is answered.
    pub(crate) fn await_end<R: Wait>(&mut self, rt: &R, t: TicketNumber)
        requires own { (o : OwnCall) × IsOwn t o (C.mine self.old.steps) × HasStarted o }
        ensures stays { StaysHome C.home self.old self.new }
        ensures done { (o : OwnCall) → IsOwn t o (C.mine self.old.steps)
            → Answers o (C.mine self.old.steps) (C.mine self.new.steps) }
    {
        for _ in rt.forever() {
            if self.finish(rt, t) {
                return;
            }
        }
        unreachable!()
    }
}
