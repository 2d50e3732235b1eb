ghost use Rattle.std.specs.Prelude.{◌≡◌, ℕ, ◌*◌, ◌<◌, List, IsSome, length, IfOk, IfErr, IfSome, OnOk, OnErr, MatchOption};
ghost use Rattle.backup_make.specs.Giving.{Covers, HasCopy};
ghost use Rattle.vol_units.specs.declared.size.TheConstants.{PAGE_BYTES};
ghost use Rattle.volume_model.specs.Modes.{mode_of, IsSource, HasNoSource};
ghost use Rattle.stream_steps.specs.Mine.{OwnCall};
ghost use Rattle.stream_steps.specs.Does.{Stands, StandsStill, Does};
ghost use Rattle.stream_steps.specs.Against.{RefusesFault};
ghost use Rattle.stream_steps.specs.Steps.{FallsTo};
ghost use Rattle.stream_steps.specs.Backup.{AgainstGiving, EndsBackup, ForBackup, GivesPage, HasBackup, KeepsCopies, KeepsTold, RefusesEndBackup};

use crate::add::AddSteps;
use backup_make::Pages;
use range_turns::TicketNumber;
use std::alloc::{AllocError, Global};
use std::sync::Wait;
use step_answers::NotThis;
use vol_units::{LayerName, VolumeSize};
use volume_model::{Mode, Reply};

/// The core's steps of a backup, as the worker of the stream takes them whose backup has the maintenance turn, each whole
/// by itself. While it has the turn, a snapshot that can be used stays one, and keeps its copy.
pub trait BackupSteps: AddSteps {
    ghost use Rattle.std.specs.Prelude.{ℕ, List, Option};
    ghost use Rattle.backup_make.specs.declared.giver.Pages.{Pages};

    // The copy of each snapshot that can be used, as it was seen last.
    ghost copies: { Self → List ℕ → Option (List ℕ) };

    // These are the pages that the lowest replica which is read tells of a snapshot's copy above a base; and while none is
    // read, each page.
    ghost asks: { Self → List ℕ → Option (List ℕ) → Pages → Type 0 };

    /// The size of a snapshot's copy, where the snapshot can be used.
    fn copy_size<R: Wait>(
        &mut self,
        rt: &R,
        t: TicketNumber,
        name: &LayerName,
    ) -> Option<VolumeSize>
        requires ready { Self.ready self.old }
        requires turn { (b s : List ℕ) × (o : OwnCall) × HasBackup t b s o (Self.mine self.old) }
        ensures stands { StandsStill Self.ready Self.home Self.mine self.old self.new }
        ensures kept { KeepsCopies (copies self.old) (copies self.new) }
        // Each snapshot that can be used has the copy that it had where an entry of the stream stands.
        ensures told { KeepsTold (Self.mine self.new) (copies self.new) }
        ensures is { MatchOption result (copies self.new name.now ≡ None) (HasCopy (copies self.new name.now)) };

    /// Which pages of the copy of a snapshot that can be used have to be read: those of which a layer above the base has
    /// blocks, where the base can be used, and is the snapshot or one on which that stands; and else those of which any
    /// layer has blocks.
    fn backup_pages<R: Wait>(
        &mut self,
        rt: &R,
        alloc: Global,
        t: TicketNumber,
        name: &LayerName,
        base: &Option<LayerName>,
    ) -> Result<Pages, AllocError>
        requires ready { Self.ready self.old }
        requires turn { (b s : List ℕ) × (o : OwnCall) × HasBackup t b s o (Self.mine self.old) }
        requires live { IsSome (copies self.old name.now) }
        ensures stands { StandsStill Self.ready Self.home Self.mine self.old self.new }
        ensures kept { KeepsCopies (copies self.old) (copies self.new) }
        ensures asks { IfOk result (asks self.new name.now base.now) }
        ensures covers { IfOk result (Covers (copies self.new) name.now base.now) };

    /// The lowest replica that is read and written.
    fn lowest<R: Wait>(&mut self, rt: &R, t: TicketNumber) -> Option<u8>
        requires ready { Self.ready self.old }
        requires turn { (b s : List ℕ) × (o : OwnCall) × HasBackup t b s o (Self.mine self.old) }
        ensures stands { StandsStill Self.ready Self.home Self.mine self.old self.new }
        ensures kept { KeepsCopies (copies self.old) (copies self.new) }
        ensures is { MatchOption result (HasNoSource (Self.modes self.new)) (IsSource (Self.modes self.new)) }
        // Where nobody else adds to the journal, it is so behind that journal.
        ensures here { IfSome (Self.mine self.new).log
            (λ log. MatchOption result (HasNoSource log.spot.modes) (IsSource log.spot.modes)) }
        ensures inside { IfSome result (λ r. r < (Self.mine self.old).replicas) };

    /// A replica gives a page of the copy of a snapshot that can be used, into a buffer that is lent. It takes no memory.
    fn snap_page<R: Wait>(
        &mut self,
        rt: &R,
        t: TicketNumber,
        replica: u8,
        name: &LayerName,
        page: u32,
        into: &mut [u8],
    ) -> Result<(), NotThis>
        requires ready { Self.ready self.old }
        requires turn { (b s : List ℕ) × (o : OwnCall) × HasBackup t b s o (Self.mine self.old) }
        requires page { IfSome (copies self.old name.now) (λ disk. page * PAGE_BYTES < length disk) }
        requires live { IsSome (copies self.old name.now) }
        requires whole { length into.old ≡ PAGE_BYTES }
        ensures stands { StandsStill Self.ready Self.home Self.mine self.old self.new }
        ensures kept { KeepsCopies (copies self.old) (copies self.new) }
        ensures ok { OnOk result (GivesPage (Self.modes self.new) replica (copies self.new name.now) page into.new) }
        ensures why { IfErr result (AgainstGiving (Self.modes self.new) replica) }
        ensures err { OnErr result (into.new ≡ into.old) };

    /// The stream's line to a replica has failed, and so the replica.
    fn backup_fault<R: Wait>(
        &mut self,
        rt: &R,
        t: TicketNumber,
        replica: u8,
        count: u64,
    ) -> Result<(), NotThis>
        requires ready { Self.ready self.old }
        requires turn { (b s : List ℕ) × (o : OwnCall) × HasBackup t b s o (Self.mine self.old) }
        ensures stands { Stands Self.ready Self.home self.old self.new }
        ensures kept { KeepsCopies (copies self.old) (copies self.new) }
        ensures does { Does result (Self.mine self.old) (Self.mine self.new)
            (λ _. FallsTo replica count (Self.mine self.old) (Self.mine self.new))
            (RefusesFault (Self.modes self.new) (Self.mine self.old) replica count) }
        ensures failed { OnOk result (mode_of (Self.modes self.new) replica ≡ Mode.Err) };

    /// Answers the backup. It is refused where it cannot be answered so.
    fn end_backup<R: Wait>(&mut self, rt: &R, t: TicketNumber, reply: Reply) -> Result<u64, NotThis>
        requires ready { Self.ready self.old }
        requires turn { (b s : List ℕ) × (o : OwnCall) × HasBackup t b s o (Self.mine self.old) }
        ensures stands { Stands Self.ready Self.home self.old self.new }
        ensures kept { KeepsCopies (copies self.old) (copies self.new) }
        ensures does { Does result (Self.mine self.old) (Self.mine self.new)
            (λ _. ForBackup t (Self.mine self.old)
            (λ b s o. EndsBackup s o reply (copies self.old) (Self.mine self.old) (Self.mine self.new)))
            (λ why. ForBackup t (Self.mine self.old)
            (λ b s o. RefusesEndBackup s reply (copies self.new) (Self.modes self.new))) };
}
