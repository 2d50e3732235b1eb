ghost use Rattle.std.specs.Prelude.{◌≡◌};
ghost use Rattle.volume_model.specs.PlainState.{purged};
ghost use Rattle.volume_model.specs.Purge.{CanBeDone, CanDrop, CanFold};
ghost use Rattle.volume_model.specs.declared.mark.FoldOrDrop.TheVariants as part;
ghost use Rattle.replica_node.specs.Fold.{tree_of};
ghost use Rattle.replica_node.specs.Volume.{volume_of_node, with_layers_of};

use crate::node::ReplicaNode;
use volume_model::{FoldOrDrop, LayerName};

/// Takes out a snapshot that can go. It takes no memory.
pub fn take_out(node: &mut ReplicaNode, part: &FoldOrDrop)
    requires { CanBeDone (tree_of node.old) node.old.on part.now }
    ensures volume { volume_of_node node.new ≡ purged (volume_of_node node.old) part.now }
    ensures head { node.new ≡ with_layers_of node.old node.new }
{
    match part {
        FoldOrDrop::Fold { parent, child } => fold(node, parent, child),
        FoldOrDrop::Drop(name) => let_go(node, name),
    }
}

/// Moves the child's blocks onto its parent, and lets the child take the parent's place.
fn fold(node: &mut ReplicaNode, parent: &LayerName, child: &LayerName)
    requires { CanFold (tree_of node.old) node.old.on parent.now child.now }
    ensures volume { volume_of_node node.new ≡ purged (volume_of_node node.old) (part.Fold parent.now child.now) }
    ensures head { node.new ≡ with_layers_of node.old node.new }
{
    // That no name comes twice, a proof learns here.
    let _layers = node.layer_count();
    node.fold(parent, child);
}

/// Lets a layer go on which nothing stands.
fn let_go(node: &mut ReplicaNode, name: &LayerName)
    requires { CanDrop (tree_of node.old) node.old.on name.now }
    ensures volume { volume_of_node node.new ≡ purged (volume_of_node node.old) (part.Drop name.now) }
    ensures head { node.new ≡ with_layers_of node.old node.new }
{
    // That no name comes twice, a proof learns here.
    let _layers = node.layer_count();
    node.delete(name);
}
