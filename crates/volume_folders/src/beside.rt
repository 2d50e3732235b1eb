ghost use Rattle.std.specs.Prelude.{◌≡◌, IfOk};
ghost use Rattle.std.specs.Option.{option_copied};
ghost use Rattle.outer_traits.specs.Causes.{HasOuterCause};
ghost use Rattle.folder_checks.specs.Told.{Told};
ghost use Rattle.volume_folders.specs.Heads.{IsHeadTold};
ghost use Rattle.volume_folders.specs.Sound.{IsSoundReplica};
ghost use Rattle.volume_folders.specs.Steps.{IsFound, IsKnownFound, StandsAgainst};

use crate::heads::{OpenedHead, head_read};
use crate::reason::Reason;
use replica_compare::compare;
use replica_node::ReplicaNode;
use replica_open::{Opened, open};
use shelf_traits::{Outer, Shelves};
use std::alloc::Global;
use vol_units::VolumeSize;

/// Opens the folder of one replica, and holds it against the disk, if there is one yet. It gives
/// the replica, which is blank where its folder is refused, its head, where it is read, and why it is not.
pub(crate) fn open_beside<S: Shelves>(
    alloc: Global,
    size: VolumeSize,
    disk: Option<&ReplicaNode>,
    shelf: u8,
    shelves: &mut S,
) -> Outer<(ReplicaNode, Option<OpenedHead>, Option<Reason>)>
    ensures same { S.holds shelves.new ≡ S.holds shelves.old }
    ensures found { IfOk result (λ x. Told (S.holds shelves.old)
        (λ files. IsFound (files shelf) size (option_copied disk.entry) x.0 x.2)) }
    ensures known { IfOk result (λ x. IsKnownFound size (option_copied disk.entry) x.0 x.2) }
    ensures head { IfOk result (λ x. Told (S.holds shelves.old) (λ files. IsHeadTold (files shelf) x.2 x.1)) }
    ensures cause { HasOuterCause (S.faults shelves.old) (S.faults shelves.new) result }
{
    let why = match open(alloc, size, shelf, shelves)? {
        Opened::Clean(node, meta) => {
            learn_replica(&node);
            let why = difference(disk, &node);
            let head = head_read(&node, meta, &why);
            return Ok((node, head, why));
        }
        Opened::Unclean(flag) => Reason::Unclean(flag),
        Opened::Damaged(damage) => Reason::Damaged(damage),
    };
    let node = ReplicaNode::blank(alloc, size)?;
    learn_replica(&node);
    Ok((node, None, Some(why)))
}

/// How a clean replica differs from the disk. The first one is the disk itself.
fn difference(disk: Option<&ReplicaNode>, node: &ReplicaNode) -> Option<Reason>
    ensures { StandsAgainst (option_copied disk.entry) node.now result }
{
    match compare(disk?, node) {
        None => None,
        Some(how) => Some(Reason::Differs(how)),
    }
}

/// What each replica keeps, a proof learns here.
pub(crate) fn learn_replica(node: &ReplicaNode)
    ensures { IsSoundReplica node.now }
{
    let _count = node.layer_count();
    let _size = node.size();
    let _on = node.head_parent();
    let _blocks = node.block_count();
}
