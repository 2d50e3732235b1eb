//! What follows from the definitions alone. Each law is a contract.

ghost use Rattle.std.specs.Prelude.{◌≡◌};
ghost use Rattle.replica_node.specs.Fold.{tree_of};
ghost use Rattle.replica_node.specs.Volume.{volume_of_node};
ghost use Rattle.replica_compare.specs.Comparing.{AreLayersAlike, AreAlike};
ghost use Rattle.replica_compare.specs.Order.{IsInOrder, disks_of};

use replica_node::ReplicaNode;

/// Where the layers of two replicas are in order, and by their names alike, they are one list.
pub fn layers_alike_are_one_list(one: &ReplicaNode, other: &ReplicaNode)
    requires one { IsInOrder one.now }
    requires other { IsInOrder other.now }
    requires alike { AreLayersAlike one.now other.now }
    ensures { tree_of one.now ≡ tree_of other.now }
{
    // That no name comes twice, a proof learns here.
    let _count = one.layer_count();
    let _count = other.layer_count();
}

/// Where `compare` finds no difference of two such replicas, their layers read as one list of disks, and they are
/// one volume.
pub fn alike_are_one_volume(one: &ReplicaNode, other: &ReplicaNode)
    requires one { IsInOrder one.now }
    requires other { IsInOrder other.now }
    requires alike { AreAlike one.now other.now }
    ensures disks { disks_of one.now ≡ disks_of other.now }
    ensures volume { volume_of_node one.now ≡ volume_of_node other.now }
{
    // That no name comes twice, a proof learns here.
    let _count = one.layer_count();
    let _count = other.layer_count();
}
