ghost use Rattle.std.specs.Prelude.{◌≡◌};
ghost use Rattle.replica_node.specs.Fold.{replaced_node, dropped_node};
ghost use Rattle.replica_node.specs.Node.{snapped_node, reverted_node};
ghost use Rattle.open_calls.specs.Due.{part_on, purged_node};
ghost use Rattle.open_calls.specs.Whole.{IsFit, IsSpared, CanSnap, CanRevert, CanPurge, HasSpare};

use crate::spares::Spares;
use range_turns::TicketNumber;
use replica_node::{ReplicaNode, Spare};
use step_answers::{Parts, WholeOp};
use volume_model::{FoldOrDrop, LayerName};

/// The call on the whole volume that has started.
#[derive(Drop)]
pub struct Whole {
    /// The number of its ticket.
    pub number: TicketNumber,
    pub op: WholeOp,
    pub parts: Parts,
    /// Those heads that are left.
    pub spares: Spares,
}

/// A replica takes its part of the operation, with the head that was made for it. It takes no memory.
pub fn take_part(node: &mut ReplicaNode, op: &WholeOp, spare: Option<Spare>)
    requires fit { IsFit op.now node.old }
    requires spare { IsSpared op.now node.old spare }
    ensures { node.new ≡ part_on op.now node.old }
{
    match op {
        WholeOp::Snapshot(name) => snapshot(node, LayerName::from(*name), spare),
        WholeOp::Remove(name) => node.mark(*name),
        WholeOp::Revert(name) => revert(node, *name, spare),
        WholeOp::Purge(part) => let_go(node, part),
        WholeOp::Barrier(_) => snapshot(node, LayerName::sys(node.head_number()), spare),
    }
}

fn snapshot(node: &mut ReplicaNode, name: LayerName, spare: Option<Spare>)
    requires can { CanSnap node.old name }
    requires spare { HasSpare node.old spare }
    ensures { node.new ≡ snapped_node node.old name }
{
    if let Some(spare) = spare {
        node.snapshot(name, spare);
    }
}

fn revert(node: &mut ReplicaNode, name: LayerName, spare: Option<Spare>)
    requires can { CanRevert node.old name }
    requires spare { HasSpare node.old spare }
    ensures { node.new ≡ reverted_node node.old name }
{
    if let Some(spare) = spare {
        node.revert(name, spare);
    }
}

fn let_go(node: &mut ReplicaNode, part: &FoldOrDrop)
    requires { CanPurge node.old part.now }
    ensures { node.new ≡ purged_node part.now node.old }
{
    match part {
        FoldOrDrop::Fold { parent, child } => node.replace(parent, child),
        FoldOrDrop::Drop(name) => node.delete(name),
    }
}
