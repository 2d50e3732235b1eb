ghost use Rattle.std.specs.Prelude.{ℕ, ◌*◌, List};
ghost use Rattle.sparse_image.specs.declared.block.TheConstants.{PAGE_BLOCKS};
ghost use Rattle.coalesce.specs.Folding.{CanFoldAt};
ghost use Rattle.replica_node.specs.Fold.{FoldsPages};
ghost use Rattle.replica_node.specs.Node.{IsNode};

use coalesce::FoldPlaces;
use layer_chain::LayerTree;

/// Folds the pages of a volume, the first of so many to the last.
pub(crate) fn fold_pages(tree: &mut LayerTree, places: FoldPlaces, pages: u32)
    requires can { (p : List ℕ) × (c : List ℕ) × CanFoldAt tree.old p c places }
    requires node { IsNode tree.old (pages * PAGE_BLOCKS) }
    ensures { (p c : List ℕ) → CanFoldAt tree.old p c places
        → FoldsPages tree.old tree.new p c places (pages * PAGE_BLOCKS) pages }
{
    for page in 0..pages {
        // That the tree is whole, a proof learns here.
        let _count = tree.count();
        coalesce::fold_page(tree, places, page);
    }
}
