//! What follows from the definitions alone. Each law is a contract.

ghost use Rattle.std.specs.Prelude.{◌≡◌, ℕ, ◌<◌, ◌≤◌, true, List, Option, None, length};
ghost use Rattle.volume_model.specs.declared.mode.Mode.{Mode};
ghost use Rattle.volume_model.specs.declared.mode.Mode.TheVariants.{Rw};
ghost use Rattle.chain_meta.specs.Kinds.{largest_head};
ghost use Rattle.shelf_traits.specs.Files.{Files};
ghost use Rattle.folder_names.specs.Files.{Folder};
ghost use Rattle.replica_node.specs.Node.{Node};
ghost use Rattle.replica_node.specs.Volume.{volume_of_node};
ghost use Rattle.replica_shelf.specs.Folder.{Stamps};
ghost use Rattle.open_calls.specs.Calls.{node_at};
ghost use Rattle.volume_folders.specs.declared.reason.Reason.{Reason};
ghost use Rattle.volume_folders.specs.Reasons.{reason_at};
ghost use Rattle.volume_folders.specs.Opened.{IsClean, IsRefusedFor, NoneIsClean, AreOpened, AreKnownOpened, AreOneVolume};
ghost use Rattle.volume_folders.specs.Saved.{is_failed, IsSavedAs, IsVolumeFolder, IsFailedFolder};

/// A folder that is refused is not clean. So where none is told to be clean, none is, and of those
/// below the disk none is.
pub fn a_refused_folder_is_not_clean()
    ensures refused { (folder : Folder) (size : ℕ) (why : Reason)
        → IsRefusedFor folder size why → IsClean folder size → ⊥ }
    ensures none { (files : Files) (size r : ℕ) (reasons : List Reason)
        → NoneIsClean files size reasons → r < length reasons → IsClean (files r) size → ⊥ }
    ensures before { (files : Files) (size r source : ℕ) (nodes : List Node) (reasons : List (Option Reason))
        → AreOpened files size nodes reasons source → r < source → IsClean (files r) size → ⊥ }
{}

/// The lowest clean folder, where shelves tell what they hold, is the first replica that is read.
pub fn the_disk_that_is_told_is_known()
    ensures { (files : Files) (size replicas told known : ℕ) (nodes : List Node) (reasons : List (Option Reason))
        → AreOpened files size nodes reasons told → AreKnownOpened size replicas nodes reasons known → told ≡ known }
{}

/// The replicas that are read are one volume, the disk's.
pub fn replicas_that_are_read_are_one_volume()
    ensures { (size replicas source r : ℕ) (nodes : List Node) (reasons : List (Option Reason))
        → AreKnownOpened size replicas nodes reasons source → r < replicas → reason_at reasons r ≡ None
        → volume_of_node (node_at nodes r) ≡ volume_of_node (node_at nodes source) }
{}

/// Two openings of the same folders have one disk, one volume, and the same modes.
pub fn the_same_folders_are_one_volume()
    ensures { (files : Files) (size replicas source other : ℕ) (nodes others : List Node) (reasons told : List (Option Reason))
        → AreOpened files size nodes reasons source → AreKnownOpened size replicas nodes reasons source
        → AreOpened files size others told other → AreKnownOpened size replicas others told other
        → AreOneVolume nodes others reasons told source other }
{}

/// A replica that is read and written is saved as a clean folder of its volume, and any other as
/// one that opens as unclean by Error.
pub fn what_is_saved_is_a_volume_or_failed()
    ensures volume { (folder : Folder) (stamps : Stamps) (node : Node) → IsSavedAs folder stamps Rw node
        → node.number ≤ largest_head → IsVolumeFolder folder stamps (volume_of_node node) }
    ensures failed { (folder : Folder) (stamps : Stamps) (mode : Mode) (node : Node) (size : ℕ)
        → IsSavedAs folder stamps mode node → is_failed mode ≡ true → IsFailedFolder folder size }
{}
