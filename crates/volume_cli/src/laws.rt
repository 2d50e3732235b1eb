//! What follows from the definitions alone, of backups that a run makes and a restore reads. Each law is a contract.

ghost use Rattle.std.specs.Prelude.{◌≡◌, ◌∷◌, ◌++◌, List, ℕ};
ghost use Rattle.target_traits.specs.Objects.{Objects};
ghost use Rattle.backup_make.specs.Made.{HasBackup};
ghost use Rattle.backup_restore.specs.Restored.{IsDiskOf, IsRestorable};
ghost use Rattle.stream_turns.specs.Store.{StoreOfRun};
ghost use Rattle.volume_model.specs.declared.call.Call.TheVariants as call;
ghost use Rattle.volume_model.specs.declared.command.Command.TheVariants as command;
ghost use Rattle.volume_model.specs.declared.call.Reply.TheVariants as reply;
ghost use Rattle.volume_model.specs.declared.entry.Answer.{Answer};
ghost use Rattle.volume_model.specs.declared.entry.Entry.{Entry};
ghost use Rattle.volume_model.specs.declared.entry.Entry.TheVariants as entry;
ghost use Rattle.volume_model.specs.History.{Spot};
ghost use Rattle.volume_model.specs.OneWorker.{behind_entries};
ghost use Rattle.volume_model.specs.PlainState.{copy_of};

/// A backup that the store has of a disk can be restored, and its disk is that one and no other.
pub fn a_backup_that_is_there_is_restored()
    ensures restorable { (objects : Objects) (volume backup disk : List ℕ)
        → HasBackup objects volume backup disk → IsRestorable objects volume backup }
    ensures disk { (objects : Objects) (volume backup disk : List ℕ)
        → HasBackup objects volume backup disk → IsDiskOf objects volume backup disk }
    ensures no_other { (objects : Objects) (volume backup disk other : List ℕ)
        → HasBackup objects volume backup disk → IsDiskOf objects volume backup other → other ≡ disk }
{}

/// A backup that a run answers `ok` is there at its end, of the copy that its snapshot had where it was answered.
pub fn a_backup_that_was_made_is_there()
    ensures { (first now : Objects) (from count : ℕ) (volume : List ℕ) (spot : Spot) (journal before after : List Entry)
        (a : Answer) (backup snapshot : List ℕ) → StoreOfRun first from now count volume spot journal
        → journal ≡ before ++ entry.Answer a ∷ after
        → a.call ≡ call.Command (command.Backup backup snapshot) → a.reply ≡ reply.Done
        → HasBackup now volume backup (copy_of (behind_entries spot before).state.volume.copies snapshot) }
{}
