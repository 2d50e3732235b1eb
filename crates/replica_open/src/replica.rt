ghost use Rattle.std.specs.Prelude.{◌≡◌, ◌*◌, ◌/◌, length, All, IfOk};
ghost use Rattle.vol_units.specs.declared.size.TheConstants.{BLOCK_BYTES as VOLUME_BLOCK};
ghost use Rattle.sparse_image.specs.declared.block.TheConstants.{PAGE_BLOCKS};
ghost use Rattle.layer_chain.specs.Changes.{headed};
ghost use Rattle.layer_chain.specs.Tree.{IsThere};
ghost use Rattle.replica_node.specs.Node.{HasPlaces};
ghost use Rattle.replica_node.specs.Places.{IsBuiltOf};
ghost use Rattle.outer_traits.specs.Causes.{HasOuterCause};
ghost use Rattle.folder_checks.specs.Told.{Told};
ghost use Rattle.replica_open.specs.Building.{CanBeBuilt, IsBuiltOrNot, IsReadReplica, HasSizes};

use crate::image::read_part;
use crate::layers::read_layers;
use folder_checks::{Damage, FolderParts};
use folder_layers::OrderedLayer;
use layer_chain::LayerTree;
use replica_node::ReplicaNode;
use shelf_traits::{Outer, Shelves};
use sparse_image::Image;
use std::alloc::Global;
use vol_units::{LayerName, VolumeSize};

/// The replica of the folder that has these parts, its layers in this order, and its head on that
/// of the name. Or how the first image is damaged that fell short.
pub(crate) fn read_replica<S: Shelves>(
    alloc: Global,
    size: VolumeSize,
    parts: &FolderParts,
    layers: Vec<OrderedLayer>,
    on: Option<LayerName>,
    shelf: u8,
    shelves: &mut S,
) -> Outer<Result<ReplicaNode, Damage>>
    requires { CanBeBuilt size parts.now layers.items on }
    ensures same { S.holds shelves.new ≡ S.holds shelves.old }
    ensures built { IfOk result (IsBuiltOrNot size parts.now layers.items on) }
    ensures told { IfOk result (λ found. Told (S.holds shelves.old) (λ files. IsReadReplica (files shelf) size parts.now found)) }
    ensures cause { HasOuterCause (S.faults shelves.old) (S.faults shelves.new) result }
{
    let tree = match read_layers(alloc, size, &parts.snapshots, layers, shelf, shelves)? {
        Ok(tree) => tree,
        Err(damage) => return Ok(Err(damage)),
    };
    match read_part(alloc, size, &parts.head, shelf, shelves)? {
        Ok(head) => Ok(Ok(replica_of(size, tree, parts.volume.head, on, head))),
        Err(damage) => Ok(Err(damage)),
    }
}

/// The replica of the layers of a tree and of a head.
fn replica_of(
    size: VolumeSize,
    mut tree: LayerTree,
    number: u64,
    on: Option<LayerName>,
    head: Image,
) -> ReplicaNode
    requires layers { All (HasPlaces (size / VOLUME_BLOCK)) tree.layers }
    requires head { length head * PAGE_BLOCKS ≡ size / VOLUME_BLOCK }
    requires there { IsThere on tree.layers }
    ensures built { IsBuiltOf (headed tree number on head) size result }
    ensures sizes { HasSizes size result }
{
    tree.put_head(number, on, head);
    let node = ReplicaNode::of_tree(size, tree);
    // How long each disk is, a proof learns here.
    let _count = node.block_count();
    node
}
