//! What follows from the definitions alone. Each law is a contract.

ghost use Rattle.std.specs.Prelude.{◌≡◌, ◌≢◌, ℕ, ℤ, ◌+◌, ◌≤◌, ◌^◌, ◌++◌, List, ◌∷◌, [], length, take, drop, Option, Some, None};
ghost use Rattle.volume_model.specs.Commands.{IsCommand};
ghost use Rattle.volume_model.specs.declared.call.Call.{Call};
ghost use Rattle.volume_model.specs.declared.call.Refusal.{Refusal};
ghost use Rattle.volume_model.specs.declared.call.Reply.TheVariants as reply;
ghost use Rattle.volume_model.specs.declared.command.Command.{Command};
ghost use Rattle.volume_model.specs.declared.entry.Entry.{Entry};
ghost use Rattle.volume_model.specs.declared.mark.FoldOrDrop.{FoldOrDrop};
ghost use Rattle.volume_model.specs.declared.mark.Rebuild.TheVariants as rebuild;
ghost use Rattle.volume_model.specs.declared.mode.Mode.{Mode};
ghost use Rattle.volume_model.specs.declared.mode.Mode.TheVariants.{Wo};
ghost use Rattle.volume_model.specs.declared.names.UsedName.{UsedName};
ghost use Rattle.volume_model.specs.Disk.{bytes_at, with_bytes_at};
ghost use Rattle.volume_model.specs.Snapshots.{Snapshot, layer_count};
ghost use Rattle.volume_model.specs.Purge.{IsFirst, IsPurged, next_in};
ghost use Rattle.volume_model.specs.PlainState.{Volume, PlainState, written, snapped, reverted};
ghost use Rattle.volume_model.specs.Marks.{HasNoMark};
ghost use Rattle.volume_model.specs.PlainStep.{plain_step, refusal_of};
ghost use Rattle.volume_model.specs.Replay.{replay};
ghost use Rattle.volume_model.specs.Modes.{HasSource, mode_of, modes_after};
ghost use Rattle.volume_model.specs.Rebuilds.{rebuild_of};
ghost use Rattle.volume_model.specs.History.{Spot, IsLegal, IsHistory};
ghost use Rattle.volume_model.specs.OneWorker.{Store, AskNone, served, after_streams, stream_of, AllProper, call_count, behind_entries};
ghost use Rattle.volume_model.specs.Copies.{HasCopies, IsCopyOf, RemovesNone};
ghost use Rattle.volume_model.specs.Names.{AreOwnFree, TellOf, AreNamed, names_after, layers_after};

/// Two commands have two texts.
pub fn a_text_is_one_command()
    ensures { (text : List ℕ) (a b : Command) → IsCommand text a → IsCommand text b → a ≡ b }
{}

/// A write within the disk keeps its size, is read back, and leaves all bytes before and behind it.
pub fn a_write_puts_its_bytes_and_no_others()
    ensures size { (disk bytes : List ℕ) (at : ℕ) → at + length bytes ≤ length disk
        → length (with_bytes_at disk at bytes) ≡ length disk }
    ensures inside { (disk bytes : List ℕ) (at : ℕ) → at + length bytes ≤ length disk
        → bytes_at (with_bytes_at disk at bytes) at (length bytes) ≡ bytes }
    ensures before { (disk bytes : List ℕ) (at : ℕ) → at + length bytes ≤ length disk
        → take at (with_bytes_at disk at bytes) ≡ take at disk }
    ensures behind { (disk bytes : List ℕ) (at : ℕ) → at + length bytes ≤ length disk
        → drop (at + length bytes) (with_bytes_at disk at bytes) ≡ drop (at + length bytes) disk }
{}

/// A snapshot is a whole copy: what is written later does not show in it.
pub fn a_snapshot_is_a_whole_copy()
    ensures { (volume : Volume) (name bytes : List ℕ) (offset : ℤ)
        → (reverted (written (snapped volume name) offset bytes) name).disk ≡ volume.disk }
{}

/// A refused call changes nothing, and is answered by the first that stands against it.
pub fn a_refused_call_changes_nothing()
    ensures { (modes : List Mode) (state : PlainState) (call : Call) (why : Refusal) → refusal_of modes state call ≡ Some why
        → plain_step modes state call ≡ (state, reply.Refused why) }
{}

/// A call gives the head the next number, or leaves it.
pub fn a_call_raises_the_number_by_at_most_one()
    ensures { (modes : List Mode) (state : PlainState) (call : Call)
        → (plain_step modes state call).0.volume.snapshots.number ≤ state.volume.snapshots.number + 1 }
{}

/// What goes next in a purge is the first that can go in byte order of names, and there is none exactly where nothing
/// can.
pub fn the_next_to_go_is_the_first()
    ensures first { (tree : List Snapshot) (on : Option (List ℕ)) (part : FoldOrDrop)
        → next_in tree on ≡ Some part → IsFirst tree on part }
    ensures only { (tree : List Snapshot) (on : Option (List ℕ)) (part : FoldOrDrop)
        → IsFirst tree on part → next_in tree on ≡ Some part }
    ensures left { (tree : List Snapshot) (on : Option (List ℕ)) → next_in tree on ≡ None → IsPurged tree on }
    ensures none { (tree : List Snapshot) (on : Option (List ℕ)) → IsPurged tree on → next_in tree on ≡ None }
{}

/// The calls of streams, answered one after another and one stream after another while no line fails, make a legal
/// history, whatever a store of backups has against backups. They are as a script may have them: a user's snapshot has no
/// name of the engine's own, and an `add` names a replica that there is.
pub fn one_worker_makes_a_history()
    ensures { (store : Store) (opening : Spot) (counted : ℕ → ℕ → ℕ) (streams : List (List Call))
        → AllProper (length opening.modes) streams
        → AreOwnFree opening.state → opening.state.volume.snapshots.number + call_count streams ≤ 2 ^ 64
        → IsHistory opening counted (stream_of streams) (served store opening streams) }
{}

/// Where a legal history ends no rebuild is open; and no replica is written alone, if none was as it began.
pub fn a_history_ends_with_no_rebuild_open()
    ensures rebuilds { (opening : Spot) (counted : ℕ → ℕ → ℕ) (calls : ℕ → List Call) (journal : List Entry)
        → IsHistory opening counted calls journal → (r s : ℕ) → rebuild_of r journal ≢ rebuild.Open s }
    ensures modes { (opening : Spot) (counted : ℕ → ℕ → ℕ) (calls : ℕ → List Call) (journal : List Entry)
        → IsHistory opening counted calls journal → ((r : ℕ) → mode_of opening.modes r ≢ Wo)
        → (r : ℕ) → mode_of (modes_after opening.modes journal) r ≢ Wo }
{}

/// A legal history of one stream's calls, none of them a backup, in which no mark stands, on replicas of which one is
/// read and written, is what answering them one after another gives.
pub fn one_stream_has_one_history()
    ensures { (store : Store) (opening : Spot) (counted : ℕ → ℕ → ℕ) (calls : List Call) (journal : List Entry)
        → HasSource opening.modes → AskNone calls
        → IsHistory opening counted (stream_of (calls ∷ [])) journal → HasNoMark journal
        → journal ≡ served store opening (calls ∷ []) }
{}

/// The replay of that journal, and the modes after it, are what the calls leave.
pub fn the_replay_is_the_last_state()
    ensures { (store : Store) (opening : Spot) (streams : List (List Call))
        → behind_entries opening (served store opening streams) ≡ after_streams opening streams }
{}

/// A legal journal tells which names were taken, which can be used, and how many layers there are. Where no two snapshots
/// had one name, and none a name that was not taken, it is so behind the journal.
pub fn a_journal_tells_of_its_snapshots()
    ensures names { (opening : Spot) (names : List UsedName) (journal : List Entry) → IsLegal opening journal
        → AreNamed opening.state → TellOf names opening.state
        → TellOf (names_after names journal) (replay opening.state journal) }
    ensures layers { (opening : Spot) (journal : List Entry) → IsLegal opening journal
        → layers_after (layer_count opening.state.volume.snapshots) journal ≡ layer_count (replay opening.state journal).volume.snapshots }
    ensures named { (opening : Spot) (journal : List Entry) → IsLegal opening journal
        → AreNamed opening.state → AreNamed (replay opening.state journal) }
{}

/// A legal journal keeps the size of the disk, and has a copy of that size for each snapshot that can be used.
pub fn a_legal_journal_keeps_the_copies()
    ensures { (opening : Spot) (size : ℕ) (journal : List Entry) → IsLegal opening journal → AreNamed opening.state
        → HasCopies size opening.state.volume → HasCopies size (replay opening.state journal).volume }
{}

/// A snapshot that can be used keeps its copy until it is removed: whatever else a legal journal goes on with.
pub fn a_snapshot_keeps_its_copy()
    ensures { (opening : Spot) (before es : List Entry) (name disk : List ℕ) → IsLegal opening before
        → IsLegal opening (before ++ es) → AreNamed opening.state → RemovesNone name es
        → IsCopyOf (replay opening.state before).volume name disk
        → IsCopyOf (replay opening.state (before ++ es)).volume name disk }
{}
