ghost use Rattle.std.specs.Prelude.{◌≡◌, ◌<◌, [], length, OnOk, OnErr, IfOk};
ghost use Rattle.volume_model.specs.Modes.{mode_of, IsSource};
ghost use Rattle.step_answers.specs.Asked.{IsOnRange};
ghost use Rattle.stream_steps.specs.Mine.{OwnCall, IsOwn, ForOwn, with_running};
ghost use Rattle.stream_steps.specs.Does.{Stands, StandsStill, Does, StartsOrWaits};
ghost use Rattle.stream_steps.specs.Against.{AgainstTake, AgainstGive, RefusesAck, RefusesFault, RefusesEnd};
ghost use Rattle.stream_steps.specs.Steps.{HasNotStarted, HasStarted, IsStartedWrite, IsStartedRead, AsksNow, EnrolsTo, AnswersNow, Answers, AdmitsTo, IsNotAfter, AreBlocksOfCall, TakesTo, FaultsTo};
ghost use Rattle.stream_steps.specs.Ended.{AcksOrEnds};
ghost use Rattle.stream_steps.specs.Seen.{IsJobOf, TellsNext, TellsSource, WaitsAs};

use crate::on_replica::OnReplica;
use crate::with_source::WithSource;
use range_turns::TicketNumber;
use sparse_image::Blocks;
use std::alloc::{AllocError, Global};
use std::sync::Wait;
use step_answers::{Admit, Enrolled, NotThis};
use volume_model::{Call, Mode};

/// The core's steps for one stream, each whole by itself. What others do between two of them is not said.
pub trait ClientSteps {
    ghost use Rattle.std.specs.Prelude.{List};
    ghost use Rattle.volume_model.specs.declared.mode.Mode.{Mode};
    ghost use Rattle.stream_steps.specs.Mine.{Mine};
    ghost use Rattle.stream_steps.specs.Seen.{Seen};

    /// What is known of the own stream.
    ghost mine: { Self → Mine };

    // The mode of each replica, as it was seen last.
    ghost modes: { Self → List Mode };

    // What the last step saw.
    ghost seen: { Self → Seen };

    // What no step changes.
    ghost Home: { Type 0 };

    ghost home: { Self → Home };

    // That the next step can be taken.
    ghost ready: { Self → Type 0 };

    /// Answers a call of a frame that asks nothing of a replica's blocks.
    fn answer_now<R: Wait>(&mut self, rt: &R, alloc: Global, call: &Call) -> Result<u64, AllocError>
        requires ready { ready self.old }
        requires idle { (mine self.old).running ≡ [] }
        requires asks { AsksNow call.now }
        ensures stands { Stands ready home self.old self.new }
        ensures ok { OnOk result (AnswersNow call.now (mine self.old) (mine self.new)) }
        ensures err { OnErr result (mine self.new ≡ mine self.old) };

    /// Puts a read or a write behind all others, or answers it where its range is not good.
    fn enrol<R: Wait>(&mut self, rt: &R, alloc: Global, call: &Call) -> Result<Enrolled, AllocError>
        requires ready { ready self.old }
        requires idle { (mine self.old).running ≡ [] }
        requires range { IsOnRange call.now }
        ensures stands { Stands ready home self.old self.new }
        ensures ok { IfOk result (λ e. EnrolsTo call.now e (mine self.old) (mine self.new)) }
        ensures err { OnErr result (mine self.new ≡ mine self.old) };

    /// Starts the open call, where nothing earlier is in its way, and tells the lowest replica that is read and written.
    fn admit<R: Wait>(
        &mut self,
        rt: &R,
        alloc: Global,
        t: TicketNumber,
    ) -> Result<WithSource<Admit>, AllocError>
        requires ready { ready self.old }
        requires open { (o : OwnCall) × IsOwn t o (mine self.old) × HasNotStarted o }
        ensures stands { Stands ready home self.old self.new }
        ensures ok { IfOk result (λ a. StartsOrWaits (mine self.old)
            (ForOwn t (mine self.old) (λ o. AdmitsTo o a.answer (mine self.old) (mine self.new)))
            (IsNotAfter a.answer) (WaitsAs t a.answer (seen self.new))) }
        ensures job { IfOk result (λ a. IsJobOf t a.answer (mine self.old) (modes self.new) (seen self.new)) }
        ensures source { IfOk result (λ a. TellsSource (modes self.new) (mine self.old).replicas a.source) }
        ensures err { OnErr result (mine self.new ≡ mine self.old) };

    /// Takes the open call back, which has not started.
    fn withdraw<R: Wait>(&mut self, rt: &R, t: TicketNumber)
        requires ready { ready self.old }
        requires waits { (o : OwnCall) × IsOwn t o (mine self.old) × HasNotStarted o }
        ensures stands { Stands ready home self.old self.new }
        ensures gone { mine self.new ≡ with_running (mine self.old) [] };

    /// The lowest replica that is read and written.
    fn source<R: Wait>(&mut self, rt: &R) -> Option<u8>
        requires ready { ready self.old }
        ensures stands { StandsStill ready home mine self.old self.new }
        ensures is { TellsSource (modes self.new) (mine self.old).replicas result };

    /// A replica takes the blocks of the open write.
    fn apply_write<R: Wait>(
        &mut self,
        rt: &R,
        t: TicketNumber,
        replica: u8,
        blocks: &mut Blocks,
    ) -> OnReplica<Result<(), NotThis>>
        requires ready { ready self.old }
        requires writes { (o : OwnCall) × IsOwn t o (mine self.old) × IsStartedWrite o
            × AreBlocksOfCall o blocks.old }
        ensures stands { Stands ready home self.old self.new }
        ensures does { Does result.answer (mine self.old) (mine self.new)
            (λ _. ForOwn t (mine self.old) (λ o. TakesTo o replica o.buffer (mine self.old) (mine self.new)))
            (AgainstTake (modes self.new) replica) }
        ensures count { length blocks.new ≡ length blocks.old }
        ensures next { TellsNext (modes self.new) replica (mine self.old).replicas result.next };

    /// The first replica that is read gives the bytes of the open read.
    fn apply_read<R: Wait>(
        &mut self,
        rt: &R,
        t: TicketNumber,
        replica: u8,
        into: &mut [u8],
    ) -> Result<(), NotThis>
        requires ready { ready self.old }
        requires source { IsSource (modes self.old) replica }
        requires reads { (o : OwnCall) × IsOwn t o (mine self.old) × IsStartedRead o
            × (length into.old ≡ length o.buffer) }
        ensures stands { Stands ready home self.old self.new }
        ensures does { Does result (mine self.old) (mine self.new)
            (λ _. ForOwn t (mine self.old) (λ o. TakesTo o replica into.new (mine self.old) (mine self.new)))
            (AgainstGive (modes self.new) replica) };

    /// A replica has acknowledged its part of the open call, which is answered thereby if it can end now: whether it is,
    /// is told.
    fn ack<R: Wait>(
        &mut self,
        rt: &R,
        t: TicketNumber,
        replica: u8,
    ) -> OnReplica<Result<bool, NotThis>>
        requires ready { ready self.old }
        requires started { (o : OwnCall) × IsOwn t o (mine self.old) × HasStarted o }
        ensures stands { Stands ready home self.old self.new }
        ensures does { Does result.answer (mine self.old) (mine self.new)
            (λ ended. ForOwn t (mine self.old)
            (λ o. AcksOrEnds o replica (modes self.new) ended (mine self.old) (mine self.new)))
            (λ why. ForOwn t (mine self.old) (λ o. RefusesAck (modes self.new) o replica why)) }
        ensures next { TellsNext (modes self.new) replica (mine self.old).replicas result.next };

    /// The stream's line to a replica has failed, and so the replica.
    fn fault<R: Wait>(&mut self, rt: &R, replica: u8, count: u64) -> OnReplica<Result<(), NotThis>>
        requires ready { ready self.old }
        ensures stands { Stands ready home self.old self.new }
        ensures does { Does result.answer (mine self.old) (mine self.new)
            (λ _. FaultsTo replica count (mine self.old) (mine self.new))
            (RefusesFault (modes self.new) (mine self.old) replica count) }
        ensures failed { OnOk result.answer (mode_of (modes self.new) replica ≡ Mode.Err) }
        ensures next { TellsNext (modes self.new) replica (mine self.old).replicas result.next };

    /// Answers the open call, once its replicas have acknowledged it or have failed.
    fn complete<R: Wait>(&mut self, rt: &R, t: TicketNumber) -> Result<u64, NotThis>
        requires ready { ready self.old }
        requires started { (o : OwnCall) × IsOwn t o (mine self.old) × HasStarted o }
        ensures stands { Stands ready home self.old self.new }
        ensures does { Does result (mine self.old) (mine self.new)
            (λ _. ForOwn t (mine self.old) (λ o. Answers o (mine self.old) (mine self.new)))
            (λ why. ForOwn t (mine self.old) (λ o. RefusesEnd (modes self.new) o why)) };
}
