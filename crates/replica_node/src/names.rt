ghost use Rattle.std.specs.Prelude.{◌≡◌, map, IfOk};
ghost use Rattle.layer_chain.specs.Tree.{name_of};

use layer_chain::LayerTree;
use std::alloc::{AllocError, Global};
use vol_units::LayerName;

/// The names of the layers of a tree, with room for one more.
pub(crate) fn names_in(alloc: Global, tree: &LayerTree) -> Result<Vec<LayerName>, AllocError>
    ensures { IfOk result (λ names. names.items ≡ map name_of tree.now.layers) }
{
    let count = tree.count();
    let mut names = Vec::with_capacity(alloc, count)?;
    for place in 0..count - 1 {
        names.push(tree.meta(place).name)?;
    }
    Ok(names)
}
