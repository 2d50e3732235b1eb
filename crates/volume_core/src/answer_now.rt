//! A call is answered at once.

ghost use Rattle.std.specs.Prelude.{◌≡◌, ◌<◌, ◌≤◌, length, IfOk, OnErr, IfSome};
ghost use Rattle.volume_model.specs.PlainStep.{plain_step};
ghost use Rattle.open_calls.specs.Clients.{IsIdle};
ghost use Rattle.open_calls.specs.Maint.{HasNoCommand};
ghost use Rattle.volume_core.specs.State.{state_of, modes_in, told_of};
ghost use Rattle.volume_core.specs.Steps.{marks_of_fall};
ghost use Rattle.volume_core.specs.Sound.{IsSound};
ghost use Rattle.volume_core.specs.Streams.{MayGo, Stays, IsAnsweredTo};
ghost use Rattle.step_answers.specs.Asked.{IsNow, AsksReplica};
ghost use Rattle.volume_core.specs.Answers.{IsAnsweredNow, failed_by, after_fail};

use crate::world::World;
use journal_book::{Call, Command, Entry, Mark, Mode, Refusal, Reply, Sequence};
use std::alloc::{AllocError, Global};

impl World {
    /// Answers a call that asks nothing of a replica's blocks, of a stream that has no call open, and gives the place
    /// of its entry.
    pub fn answer_now(&mut self, alloc: Global, stream: u8, call: &Call) -> Result<u64, AllocError>
        requires sound { IsSound (state_of self.old) }
        requires stream { stream < length self.old.indices.items }
        requires idle { IsIdle stream self.old.calls.items }
        requires free { HasNoCommand stream self.old.commands.items }
        requires now { IsNow call.now }
        requires there { AsksReplica (length self.old.nodes.items) call.now }
        ensures sound { IsSound (state_of self.new) }
        ensures ok { IfOk result (λ place.
            IsAnsweredNow (state_of self.old) stream call.now place (state_of self.new)) }
        ensures err { OnErr result (state_of self.new ≡ state_of self.old) }
        ensures may { MayGo stream (state_of self.old) (state_of self.new) }
        ensures sees { IfOk result (λ place. IsAnsweredTo stream call.now (state_of self.old) (state_of self.new)) }
        ensures stays { OnErr result (Stays stream (state_of self.old) (state_of self.new)) }
    {
        let saw = self.journal.len();
        let reply = self.reply_now(alloc, call)?;
        self.make_place()?;
        self.follow_fail(call);
        Ok(self.push_answer(stream, saw, copy_of(call), reply))
    }

    /// What the plain disk answers to such a call.
    fn reply_now(&self, alloc: Global, call: &Call) -> Result<Reply, AllocError>
        requires sound { IsSound (state_of self.now) }
        requires now { IsNow call.now }
        ensures { IfOk result (λ r. r
            ≡ (plain_step (modes_in (state_of self.now)) (told_of (state_of self.now)) call.now).1) }
    {
        match call {
            Call::Read { .. } => Ok(Reply::Refused(Refusal::TooLong)),
            Call::Other(_) => Ok(Reply::Refused(Refusal::Unsupported)),
            Call::Command(Command::Status) => {
                let modes = Vec::from_slice(alloc, self.journal.modes())?;
                Ok(Reply::Status {
                    layers: self.journal.layers(),
                    modes: Sequence::of(modes),
                })
            }
            Call::Ping | Call::Write { .. } | Call::Command(_) => Ok(Reply::Done),
        }
    }

    /// Lets a replica fail that the call names, unless it had, and aborts the rebuild of which it is the source or the
    /// target. It takes no memory.
    fn follow_fail(&mut self, call: &Call)
        requires { IfSome (failed_by call.now)
            (λ r. marks_of_fall self.old.rebuild r ≤ self.old.journal.spare) }
        ensures { state_of self.new ≡ after_fail (state_of self.old) (failed_by call.now) }
    {
        if let Call::Command(Command::Fail(replica)) = call {
            if self.journal.mode(*replica) != Mode::Err {
                self.journal
                    .push_reserved(Entry::Mark(Mark::Failed(*replica)));
                self.abort_behind(*replica);
            }
        }
    }
}

/// Such a call once more. It takes no memory.
fn copy_of(call: &Call) -> Call
    requires { IsNow call.now }
    ensures { result ≡ call.now }
{
    match call {
        Call::Read { offset, length } => Call::Read {
            offset: *offset,
            length: *length,
        },
        Call::Ping => Call::Ping,
        Call::Other(kind) => Call::Other(*kind),
        Call::Command(command) => Call::Command(*command),
        Call::Write { .. } => unreachable!(),
    }
}
