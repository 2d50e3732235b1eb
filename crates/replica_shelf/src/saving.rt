ghost use Rattle.std.specs.Prelude.{◌≡◌, ◌≤◌, OnOk, Err, true};
ghost use Rattle.outer_traits.specs.Causes.{HasOuterCause};
ghost use Rattle.shelf_traits.specs.Files.{Both};
ghost use Rattle.chain_meta.specs.Kinds.{largest_head};
ghost use Rattle.replica_shelf.specs.Folder.{IsVolumeOf, IsFolderOf, volume_meta_of};
ghost use Rattle.replica_shelf.specs.Saving.{stamps_of, IsSaved, ForeignStay, FellElsewhere};

use crate::head::HeadMeta;
use crate::metas::{dirty_volume, put_volume};
use crate::parts::put_parts;
use replica_node::ReplicaNode;
use shelf_traits::{Outer, OuterError, Shelves};
use std::alloc::Global;
use vol_units::TimeText;

/// What is told of a replica that is saved, beside the replica.
#[derive(Debug, Drop)]
pub struct SaveMeta {
    /// The time of this run.
    pub time: TimeText,
    /// What is told of its head.
    pub head: HeadMeta,
    /// The replica is in ERR.
    pub failed: bool,
}

/// Writes the folder of a replica, which tells that it is dirty until all else is written.
pub fn save<S: Shelves>(
    alloc: Global,
    node: &ReplicaNode,
    meta: &SaveMeta,
    shelf: u8,
    shelves: &mut S,
) -> Outer<()>
    ensures ok { OnOk result (node.now.number ≤ largest_head → Both (S.holds shelves.old) (S.holds shelves.new)
        (λ old new. IsFolderOf (new shelf) (stamps_of meta.now) meta.now.failed node.now)) }

    // Whatever the head's number is, just these files are there of it, and of no other image.
    ensures files { OnOk result (Both (S.holds shelves.old) (S.holds shelves.new)
        (λ old new. IsSaved (new shelf) (stamps_of meta.now) meta.now.failed node.now)) }
    ensures others { Both (S.holds shelves.old) (S.holds shelves.new) (ForeignStay shelf) }

    // Where a call failed that was to change another file than the metadata of the volume, that says Dirty.
    ensures dirty { result ≡ Err OuterError.Failed → FellElsewhere (S.failed_at shelves.new)
        → node.now.number ≤ largest_head → Both (S.holds shelves.old) (S.holds shelves.new)
        (λ old new. IsVolumeOf (new shelf) (volume_meta_of true meta.now.failed node.now)) }
    ensures cause { HasOuterCause (S.faults shelves.old) (S.faults shelves.new) result }
{
    let mut volume = dirty_volume(alloc, node, meta.failed)?;
    put_volume(alloc, &volume, shelf, shelves)?;
    put_parts(alloc, node, meta, shelf, shelves)?;
    // All else is on the shelf for good, so that a folder which says that it is clean is whole.
    volume.dirty = false;
    put_volume(alloc, &volume, shelf, shelves)
}
