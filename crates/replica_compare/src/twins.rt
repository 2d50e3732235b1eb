ghost use Rattle.std.specs.Prelude.{◌≡◌, ℕ, ◌<◌, ◌≤◌, length, IsTrue};
ghost use Rattle.replica_node.specs.Node.{IsKept};
ghost use Rattle.replica_node.specs.Places.{kept_at};
ghost use Rattle.replica_compare.specs.Comparing.{AreLayersAlike};
ghost use Rattle.replica_compare.specs.Blocks.{AreTwins, IsParentAt};

use replica_node::ReplicaNode;
use vol_units::LayerName;

/// Of the layer at a place of a replica: the place of the one of its name in the other replica, and that of its
/// parent, which is older, in its own.
#[derive(Debug, Clone, Copy)]
pub(crate) struct Twin {
    pub other: usize,
    pub parent: Option<usize>,
}

/// Finds them for each layer of the one.
pub(crate) fn find_twins(one: &ReplicaNode, other: &ReplicaNode, twins: &mut [Twin])
    requires alike { AreLayersAlike one.now other.now }
    requires room { length one.now.layers ≤ length twins.old }
    ensures { AreTwins one.now other.now (length one.now.layers) twins.new }
{
    for place in 0..one.layer_count() - 1 {
        twins[place] = Twin {
            other: place_of(other, &one.meta(place).name),
            parent: parent_of(one, place),
        };
    }
}

/// The place of the layer of a name.
fn place_of(node: &ReplicaNode, name: &LayerName) -> usize
    requires { IsKept node.now (Some name.now) }
    ensures within { result < length node.now.layers }
    ensures name { (kept_at node.now.layers result).meta.name ≡ name.now }
{
    for place in 0..node.layer_count() - 1 {
        if node.meta(place).name == *name {
            return place;
        }
    }
    unreachable!()
}

/// The place of the older layer on which the one at a place stands.
fn parent_of(node: &ReplicaNode, place: usize) -> Option<usize>
    requires { place < length node.now.layers }
    ensures { IsParentAt node.now.layers place result }
{
    let count = node.layer_count() - 1;
    let parent = node.meta(place).parent;
    for older in place + 1..count {
        if parent == Some(node.meta(older).name) {
            return Some(older);
        }
    }
    None
}
