ghost use Rattle.std.specs.Prelude.{◌≡◌, ◌+◌, ◌^◌, ◌<◌, length, Some, not};
ghost use Rattle.vol_units.specs.Name.{begins_sys};
ghost use Rattle.layer_chain.specs.Changes.{snapped_tree, reverted_tree};
ghost use Rattle.layer_chain.specs.Tree.{IsNew, IsThere};
ghost use Rattle.vol_units.specs.declared.limits.TheConstants.{MOST_LAYERS};
ghost use Rattle.snapshot_ops.specs.Ops.{TakesSnapshot, Reverts, Marks};

use crate::spare::Spare;
use layer_chain::LayerTree;
use vol_units::LayerName;

/// The head becomes the layer of that name, and an empty head stands on it.
pub fn snapshot(tree: &mut LayerTree, name: LayerName, spare: Spare)
    requires room { length tree.old.layers + 1 < MOST_LAYERS }
    requires new { IsNew name tree.old.layers }
    requires number { tree.old.number + 1 < 2 ^ 64 }
    ensures tree { tree.new ≡ snapped_tree tree.old name (not (begins_sys name)) spare }
    ensures readings { TakesSnapshot tree.old tree.new name }
{
    tree.snap_head(name, is_users(&name), spare.into_image());
}

/// The head is dropped, and an empty head stands on the layer of that name.
pub fn revert(tree: &mut LayerTree, name: LayerName, spare: Spare)
    requires there { IsThere (Some name) tree.old.layers }
    requires number { tree.old.number + 1 < 2 ^ 64 }
    ensures tree { tree.new ≡ reverted_tree tree.old name spare }
    ensures readings { Reverts tree.old tree.new name }
{
    tree.move_head(name, spare.into_image());
}

/// The layer of that name is to be removed.
pub fn mark(tree: &mut LayerTree, name: &LayerName)
    requires { IsThere (Some name.now) tree.old.layers }
    ensures { Marks tree.old tree.new name.now }
{
    if let Some(place) = tree.index_of(name) {
        tree.mark_layer(place);
    }
}

fn is_users(name: &LayerName) -> bool
    ensures { result ≡ not (begins_sys name.now) }
{
    !name.as_bytes().starts_with(b"sys-")
}
