ghost use Rattle.volume_model.specs.declared.command.Command.{Command};
ghost use Rattle.step_answers.specs.declared.whole_op.WholeOp.{WholeOp};
ghost use Rattle.std.specs.Prelude.{◌≡◌, ◌≢◌, ℕ, ◌*◌, ◌<◌, Bool, List, length, [], ◌∷◌, false, true, IfOk, IfErr, OnOk, OnErr, IfSome, Ok};
ghost use Rattle.vol_units.specs.Name.{begins_sys};
ghost use Rattle.vol_units.specs.declared.size.TheConstants.{PAGE_BYTES};
ghost use Rattle.volume_model.specs.declared.call.Call.TheVariants as call;
ghost use Rattle.volume_model.specs.declared.call.Reply.{Reply};
ghost use Rattle.volume_model.specs.Modes.{mode_of};
ghost use Rattle.step_answers.specs.Asked.{command_of};
ghost use Rattle.stream_steps.specs.Mine.{OwnCall, with_running};
ghost use Rattle.stream_steps.specs.Does.{Stands, StandsStill, Does, StartsOrWaits, MayAsk};
ghost use Rattle.stream_steps.specs.Against.{RefusesFault};
ghost use Rattle.stream_steps.specs.Steps.{CommandsTo, EnrolsAt, FallsTo, IsAtOnce};
ghost use Rattle.stream_steps.specs.Maint.{IsMaint, IsNoAdd, IsNoBarrier, HasTurn, ForTurn, AwaitsTurn, TurnsTo, IsYes, HasWhole, ForWhole, EnrolsSnapshot, EnrolsOr, AnswersWhole, AdmitsWhole, IsNotLater, PartsTo, AcksWhole, AgainstPart, AgainstAckWhole, AgainstEndWhole, WholeEnds, IsNext};
ghost use Rattle.stream_steps.specs.Seen.{CannotGo, FindsNext, RefusesEndPurge, RefusesFold, WaitsTurn, WaitsWhole};

use range_turns::{MayStart, TicketNumber};
use std::alloc::{AllocError, Global};
use std::sync::Wait;
use step_answers::{AdmitWhole, NextPart, NotThis, WholeOp};
use vol_units::LayerName;
use volume_model::{Command, Mode, Reply};

/// The core's steps for one stream whose commands are carried to the replicas, each whole by itself. What others do
/// between two of them is not said.
pub trait CommandSteps {
    ghost use Rattle.std.specs.Prelude.{ℕ, Bool, List};
    ghost use Rattle.volume_model.specs.declared.mark.FoldOrDrop.{FoldOrDrop};
    ghost use Rattle.volume_model.specs.declared.mode.Mode.{Mode};
    ghost use Rattle.stream_steps.specs.Mine.{Mine};
    ghost use Rattle.stream_steps.specs.Seen.{Seen};

    /// What is known of the own stream.
    ghost mine: { Self → Mine };

    // The mode of each replica, as it was seen last.
    ghost modes: { Self → List Mode };

    // What the last step saw.
    ghost seen: { Self → Seen };

    // That replica is read, and has a block of the page in the one child of the layer.
    ghost wants_fold: { Self → ℕ → List ℕ → ℕ → Type 0 };

    // The part of a purge can be done, and each replica that is read has folded it.
    ghost may_go: { Self → FoldOrDrop → Type 0 };

    // No rebuild was begun of the command that has the turn.
    ghost unbegun: { Self → Type 0 };

    // The rebuild of the second replica from the first is open, past its barrier where that is said, or was aborted.
    ghost begun: { Self → Bool → ℕ → ℕ → Type 0 };

    // What no step changes.
    ghost Home: { Type 0 };

    ghost home: { Self → Home };

    // That the next step can be taken.
    ghost ready: { Self → Type 0 };

    /// Answers a command at once: a replica fails, or the status is told.
    fn answer_at_once<R: Wait>(
        &mut self,
        rt: &R,
        alloc: Global,
        command: &Command,
    ) -> Result<u64, AllocError>
        requires ready { ready self.old }
        requires idle { (mine self.old).running ≡ [] }
        requires asks { MayAsk IsAtOnce (mine self.old).replicas command.now }
        ensures stands { Stands ready home self.old self.new }
        ensures ok { OnOk result (CommandsTo command.now (mine self.old) (mine self.new)) }
        ensures err { OnErr result (mine self.new ≡ mine self.old) };

    /// The mode of a replica.
    fn mode_of<R: Wait>(&mut self, rt: &R, replica: u8) -> Mode
        requires ready { ready self.old }
        ensures stands { StandsStill ready home mine self.old self.new }
        ensures begun { (past : Bool) (source r : ℕ) → begun self.old past source r → begun self.new past source r }
        ensures is { result ≡ mode_of (modes self.new) replica };

    /// The stream's line to a replica has failed, and so the replica: thereby a rebuild may be aborted.
    fn line_failed<R: Wait>(&mut self, rt: &R, replica: u8, count: u64) -> Result<(), NotThis>
        requires ready { ready self.old }
        ensures stands { Stands ready home self.old self.new }
        ensures begun { (past : Bool) (source r : ℕ) → begun self.old past source r → begun self.new past source r }
        ensures does { Does result (mine self.old) (mine self.new)
            (λ _. FallsTo replica count (mine self.old) (mine self.new))
            (RefusesFault (modes self.new) (mine self.old) replica count) }
        ensures failed { OnOk result (mode_of (modes self.new) replica ≡ Mode.Err) };

    /// How many pages the volume has.
    fn page_count<R: Wait>(&mut self, rt: &R) -> u32
        requires ready { ready self.old }
        ensures stands { StandsStill ready home mine self.old self.new }
        ensures is { result * PAGE_BYTES ≡ length (seen self.new).log.spot.state.volume.disk };

    // ---- the maintenance turn

    /// Puts a command behind those that have the maintenance turn or wait for it.
    fn enrol_maint<R: Wait>(
        &mut self,
        rt: &R,
        alloc: Global,
        command: &Command,
    ) -> Result<TicketNumber, AllocError>
        requires ready { ready self.old }
        requires idle { (mine self.old).running ≡ [] }
        requires asks { MayAsk IsMaint (mine self.old).replicas command.now }
        ensures stands { Stands ready home self.old self.new }
        ensures ok { IfOk result (λ t. EnrolsAt t (call.Command command.now) (mine self.old) (mine self.new)) }
        ensures err { OnErr result (mine self.new ≡ mine self.old) };

    /// Gives the turn to the command, where no earlier one has it or waits for it.
    fn admit_maint<R: Wait>(&mut self, rt: &R, t: TicketNumber) -> MayStart
        requires ready { ready self.old }
        requires waits { (c : Command) × (o : OwnCall) × AwaitsTurn t c o (mine self.old) }
        ensures stands { Stands ready home self.old self.new }
        ensures turns { StartsOrWaits (mine self.old) ((c : Command) (o : OwnCall)
            → AwaitsTurn t c o (mine self.old) → TurnsTo o result (mine self.old) (mine self.new))
            (IsYes result) (WaitsTurn t result (seen self.new)) }
        ensures unbegun { result ≡ MayStart.Yes → unbegun self.new };

    /// Ends a purge that has the turn: it is done, or there is no replica. It is refused where it cannot be answered
    /// so.
    fn end_maint<R: Wait>(&mut self, rt: &R, t: TicketNumber, reply: Reply) -> Result<u64, NotThis>
        requires ready { ready self.old }
        requires turn { (o : OwnCall) × HasTurn t Command.Purge o (mine self.old) }
        ensures stands { Stands ready home self.old self.new }
        ensures does { Does result (mine self.old) (mine self.new)
            (λ _. ForTurn t Command.Purge (mine self.old) (λ o. AnswersWhole o reply (mine self.old) (mine self.new)))
            (λ why. RefusesEndPurge reply (seen self.new)) };

    /// Gives the turn back without an answer, once memory ran out: of a command that is no add. What is kept at home
    /// may tell then that the stream gave a command up.
    fn abandon<R: Wait>(&mut self, rt: &R, t: TicketNumber)
        requires ready { ready self.old }
        requires turn { (c : Command) × (o : OwnCall) × HasTurn t c o (mine self.old) × IsNoAdd c }
        ensures ready { ready self.new }
        ensures gone { mine self.new ≡ with_running (mine self.old) [] };

    // ---- the whole volume

    /// Puts a snapshot behind all calls.
    fn enrol_snapshot<R: Wait>(
        &mut self,
        rt: &R,
        alloc: Global,
        op: &WholeOp,
    ) -> Result<TicketNumber, AllocError>
        requires ready { ready self.old }
        requires idle { (mine self.old).running ≡ [] }
        requires snapshot { (name : List ℕ) × (op.now ≡ WholeOp.Snapshot name) × (begins_sys name ≡ false) }
        ensures stands { Stands ready home self.old self.new }
        ensures ok { IfOk result (λ t. EnrolsSnapshot t op.now (mine self.old) (mine self.new)) }
        ensures err { OnErr result (mine self.new ≡ mine self.old) };

    /// Puts what the command does that has the turn behind all calls. None: a part of a purge that cannot go, or a
    /// replica that is read has a block of its child yet.
    fn enrol_whole<R: Wait>(
        &mut self,
        rt: &R,
        alloc: Global,
        t: TicketNumber,
        op: &WholeOp,
    ) -> Result<Option<TicketNumber>, AllocError>
        requires ready { ready self.old }
        requires turn { (o : OwnCall) × HasTurn t (command_of op.now) o (mine self.old) }
        ensures stands { Stands ready home self.old self.new }
        ensures ok { IfOk result (λ number. EnrolsOr t op.now number
            (CannotGo op.now (may_go self.new) (modes self.new)) (mine self.old) (mine self.new)) }
        ensures unbegun { unbegun self.old → unbegun self.new }
        ensures err { OnErr result (mine self.new ≡ mine self.old) };

    /// Starts the operation, where no earlier call is in its way.
    fn admit_whole<R: Wait>(
        &mut self,
        rt: &R,
        alloc: Global,
        t: TicketNumber,
    ) -> Result<AdmitWhole, AllocError>
        requires ready { ready self.old }
        requires open { (op : WholeOp) × (turn : List OwnCall) × (o : OwnCall)
            × HasWhole t op turn o (mine self.old) × (o.started ≡ false) }
        ensures stands { Stands ready home self.old self.new }
        ensures ok { IfOk result (λ a. StartsOrWaits (mine self.old)
            (ForWhole t (mine self.old) (λ op turn o. AdmitsWhole op turn o a (mine self.old) (mine self.new)))
            (IsNotLater a) (WaitsWhole t a (seen self.new))) }
        ensures never { ForWhole t (mine self.old) (λ op turn o. IsNoBarrier op → result ≢ Ok AdmitWhole.Never) }
        ensures err { OnErr result (mine self.new ≡ mine self.old) };

    /// Takes the operation back, which has not started.
    fn withdraw_whole<R: Wait>(&mut self, rt: &R, t: TicketNumber)
        requires ready { ready self.old }
        requires waits { (op : WholeOp) × (turn : List OwnCall) × (o : OwnCall)
            × HasWhole t op turn o (mine self.old) × (o.started ≡ false) }
        ensures stands { Stands ready home self.old self.new }
        ensures gone { ForWhole t (mine self.old) (λ op turn o. mine self.new ≡ with_running (mine self.old) turn) };

    /// A replica takes its part of the operation.
    fn part<R: Wait>(&mut self, rt: &R, t: TicketNumber, replica: u8) -> Result<(), NotThis>
        requires ready { ready self.old }
        requires started { (op : WholeOp) × (turn : List OwnCall) × (o : OwnCall)
            × HasWhole t op turn o (mine self.old) × (o.started ≡ true) }
        ensures stands { Stands ready home self.old self.new }
        ensures begun { (past : Bool) (source r : ℕ) → begun self.old past source r → begun self.new past source r }
        ensures does { Does result (mine self.old) (mine self.new)
            (λ _. ForWhole t (mine self.old) (λ op turn o. PartsTo turn o replica (mine self.old) (mine self.new)))
            (λ why. ForWhole t (mine self.old) (λ op turn o. AgainstPart (modes self.new) o replica why)) };

    /// A replica, which took its part, has acknowledged it.
    fn ack_whole<R: Wait>(&mut self, rt: &R, t: TicketNumber, replica: u8) -> Result<(), NotThis>
        requires ready { ready self.old }
        requires started { (op : WholeOp) × (turn : List OwnCall) × (o : OwnCall)
            × HasWhole t op turn o (mine self.old) × (o.started ≡ true) }
        ensures stands { Stands ready home self.old self.new }
        ensures begun { (past : Bool) (source r : ℕ) → begun self.old past source r → begun self.new past source r }
        ensures does { Does result (mine self.old) (mine self.new)
            (λ _. ForWhole t (mine self.old) (λ op turn o. AcksWhole turn o replica (mine self.old) (mine self.new)))
            (λ why. ForWhole t (mine self.old) (λ op turn o. AgainstAckWhole o replica why)) };

    /// Ends the operation, once each replica has acknowledged its part or has failed.
    fn complete_whole<R: Wait>(&mut self, rt: &R, t: TicketNumber) -> Result<u64, NotThis>
        requires ready { ready self.old }
        requires started { (op : WholeOp) × (turn : List OwnCall) × (o : OwnCall)
            × HasWhole t op turn o (mine self.old) × (o.started ≡ true) }
        ensures stands { Stands ready home self.old self.new }
        ensures does { Does result (mine self.old) (mine self.new)
            (λ _. ForWhole t (mine self.old) (λ op turn o. WholeEnds op turn o (mine self.old) (mine self.new)))
            (λ why. ForWhole t (mine self.old) (λ op turn o. AgainstEndWhole (modes self.new) o why)) }
        ensures begun { (past : Bool) (source r : ℕ) → begun self.old past source r → begun self.new past source r }
        ensures past { OnOk result ((r source : ℕ) (turn : List OwnCall) (o : OwnCall)
            → HasWhole t (WholeOp.Barrier r) turn o (mine self.old) → begun self.old false source r
            → begun self.new true source r) };

    // ---- a purge

    /// What the purge that has the turn does next.
    fn fold_next<R: Wait>(&mut self, rt: &R, t: TicketNumber) -> NextPart
        requires ready { ready self.old }
        requires turn { (o : OwnCall) × HasTurn t Command.Purge o (mine self.old) }
        ensures stands { StandsStill ready home mine self.old self.new }
        ensures found { FindsNext result (seen self.new) }
        ensures is { IfSome (mine self.old).log (IsNext result) };

    /// Whether a replica is read and has a block of the page in the one child of the layer.
    fn fold_wanted<R: Wait>(&mut self, rt: &R, replica: u8, parent: &LayerName, page: u32) -> bool
        requires ready { ready self.old }
        ensures stands { StandsStill ready home mine self.old self.new }
        ensures wanted { result ≡ true → wants_fold self.new replica parent.now page }
        ensures not { result ≡ false → ¬ wants_fold self.new replica parent.now page };

    /// A replica folds a page of the layer's one child onto the layer.
    fn fold_page<R: Wait>(
        &mut self,
        rt: &R,
        t: TicketNumber,
        replica: u8,
        parent: &LayerName,
        page: u32,
    ) -> Result<(), NotThis>
        requires ready { ready self.old }
        requires turn { (o : OwnCall) × HasTurn t Command.Purge o (mine self.old) }
        ensures stands { StandsStill ready home mine self.old self.new }
        ensures folded { OnOk result (¬ wants_fold self.new replica parent.now page) }
        ensures why { IfErr result (RefusesFold replica parent.now page (modes self.new) (seen self.new).log) };
}
