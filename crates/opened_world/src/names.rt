//! The names that are found in the disk.

ghost use Rattle.std.specs.Prelude.{◌≡◌, [], IfOk, OnOk};
ghost use Rattle.replica_node.specs.Fold.{tree_of};
ghost use Rattle.opened_world.specs.Names.{names_of};

use journal_book::TakenNames;
use std::alloc::{AllocError, Global};
use volume_folders::ReplicaNode;

/// The names of the disk's snapshots, each with its mark.
pub(crate) fn names_of(alloc: Global, disk: &ReplicaNode) -> Result<TakenNames, AllocError>
    ensures { IfOk result (λ names. names ≡ names_of (tree_of disk.now)) }
{
    let mut names = TakenNames::none(alloc);
    take_disk(&mut names, disk)?;
    Ok(names)
}

/// Takes the names of the disk's snapshots, the oldest first.
fn take_disk(names: &mut TakenNames, disk: &ReplicaNode) -> Result<(), AllocError>
    requires { names.old ≡ [] }
    ensures { OnOk result (names.new ≡ names_of (tree_of disk.now)) }
{
    for place in (0..disk.layer_count() - 1).rev() {
        let layer = disk.meta(place);
        names.take_found(layer.name, layer.marked)?;
    }
    Ok(())
}
