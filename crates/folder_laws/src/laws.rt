//! What follows from the definitions alone. Each law is a contract.

ghost use Rattle.std.specs.Prelude.{◌≡◌, Bool};
ghost use Rattle.folder_names.specs.Files.{Folder};
ghost use Rattle.replica_shelf.specs.Folder.{Stamps, IsFolderOf};
ghost use Rattle.replica_compare.specs.Comparing.{AreAlike};
ghost use Rattle.folder_laws.specs.Told.{AreToldAlike};

use replica_node::ReplicaNode;

/// One folder is one replica. Two that it is, whatever their times, are alike: no name, shape or
/// reading differs. What is told of their layers is one, too, where a layer that tells no time has
/// that of its own side, and so is what is told of the head; and both are in ERR, or neither is.
pub fn one_folder_is_one_replica(one: &ReplicaNode, other: &ReplicaNode)
    ensures alike { (folder : Folder) (stamps later : Stamps) (failed failed_later : Bool)
        → IsFolderOf folder stamps failed one.now → IsFolderOf folder later failed_later other.now
        → AreAlike one.now other.now }
    ensures told { (folder : Folder) (stamps later : Stamps) (failed failed_later : Bool)
        → IsFolderOf folder stamps failed one.now → IsFolderOf folder later failed_later other.now
        → AreToldAlike stamps.now later.now one.now other.now }
    ensures head { (folder : Folder) (stamps later : Stamps) (failed failed_later : Bool)
        → IsFolderOf folder stamps failed one.now → IsFolderOf folder later failed_later other.now
        → stamps.head ≡ later.head }
    ensures failed { (folder : Folder) (stamps later : Stamps) (failed failed_later : Bool)
        → IsFolderOf folder stamps failed one.now → IsFolderOf folder later failed_later other.now
        → failed ≡ failed_later }
{
    // That no name comes twice, and how own blocks make readings, a proof learns here.
    let _count = one.layer_count();
    let _blocks = one.block_count();
    let _count = other.layer_count();
    let _blocks = other.block_count();
}
