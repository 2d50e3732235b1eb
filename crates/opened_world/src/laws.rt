//! What follows from the definitions alone. Each law is a contract.

ghost use Rattle.std.specs.Prelude.{◌≡◌, ℕ, ◌<◌, List, Option};
ghost use Rattle.volume_model.specs.Names.{has_name};
ghost use Rattle.volume_model.specs.PlainState.{is_used};
ghost use Rattle.shelf_traits.specs.Files.{Files};
ghost use Rattle.replica_node.specs.Fold.{tree_of};
ghost use Rattle.replica_node.specs.Node.{Node};
ghost use Rattle.replica_node.specs.Volume.{volume_of_node};
ghost use Rattle.open_calls.specs.Calls.{node_at};
ghost use Rattle.volume_folders.specs.declared.reason.Reason.{Reason};
ghost use Rattle.volume_folders.specs.Opened.{AreOpened, AreKnownOpened};
ghost use Rattle.opened_world.specs.Opening.{opened_spot};

/// A run begins with the volume of the lowest clean folder.
pub fn a_run_begins_as_the_disk()
    ensures { (size replicas source : ℕ) (nodes : List Node) (reasons : List (Option Reason))
        → AreKnownOpened size replicas nodes reasons source
        → (opened_spot nodes reasons).state.volume ≡ volume_of_node (node_at nodes source) }
{}

/// The names of the disk's snapshots, marked or not, are used, and no other is.
pub fn the_names_of_the_disk_are_used()
    ensures { (size replicas source : ℕ) (nodes : List Node) (reasons : List (Option Reason)) (name : List ℕ)
        → AreKnownOpened size replicas nodes reasons source
        → is_used (opened_spot nodes reasons).state.used name ≡ has_name (tree_of (node_at nodes source)) name }
{}

/// Two openings of the same folders are where one run begins: so what is printed is a function of the folders.
pub fn the_same_folders_begin_alike()
    ensures { (files : Files) (size replicas source other : ℕ) (nodes others : List Node) (reasons told : List (Option Reason))
        → AreOpened files size nodes reasons source → AreKnownOpened size replicas nodes reasons source
        → AreOpened files size others told other → AreKnownOpened size replicas others told other
        → opened_spot others told ≡ opened_spot nodes reasons }
{}
