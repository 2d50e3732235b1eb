//! A folder that is a replica is not refused. The law is a contract.

ghost use Rattle.std.specs.Prelude.{ℕ, ◌/◌, List, length, false};
ghost use Rattle.vol_units.specs.declared.size.TheConstants.{BLOCK_BYTES};
ghost use Rattle.chain_meta.specs.VolumeMetas.{SaysVolume};
ghost use Rattle.chain_meta.specs.declared.volume_meta.VolumeMeta.{VolumeMeta};
ghost use Rattle.folder_names.specs.Files.{Folder, volume_file};
ghost use Rattle.replica_shelf.specs.Folder.{Stamps, IsFolderOf};
ghost use Rattle.folder_checks.specs.Told.{FileTells};
ghost use Rattle.folder_checks.specs.Checks.{IsFlagged, FolderFault};
ghost use Rattle.folder_checks.specs.declared.parts.Flag.{Flag};
ghost use Rattle.folder_layers.specs.Folders.{HasMisfit, HasEarlierNames};

use replica_node::ReplicaNode;

/// A folder that is a replica, which is not in ERR, is not refused. Nothing makes it unclean, no file
/// of it is damaged, and its layers fit together where the engine's own names are of earlier heads.
pub fn a_replica_is_not_refused(node: &ReplicaNode)
    ensures unflagged { (folder : Folder) (stamps : Stamps) (v : VolumeMeta) (flag : Flag)
        → IsFolderOf folder stamps false node.now → FileTells folder volume_file SaysVolume v
        → IsFlagged (length node.now.disk) v flag → ⊥ }
    ensures good { (folder : Folder) (stamps : Stamps) (file : List ℕ) (place : ℕ)
        → IsFolderOf folder stamps false node.now
        → FolderFault folder (length node.now.disk) (length node.now.disk / BLOCK_BYTES) file place
        → ⊥ }
    ensures fit { (folder : Folder) (stamps : Stamps) (file : List ℕ) (place : ℕ)
        → IsFolderOf folder stamps false node.now → HasEarlierNames node.now
        → HasMisfit folder (length node.now.disk) file place → ⊥ }
{
    // What each replica keeps, a proof learns here.
    let _count = node.layer_count();
    let _blocks = node.block_count();
    let _on = node.head_parent();
}
