ghost use Rattle.std.specs.Prelude.{◌≡◌, ◌<◌, ℕ, List, length, Some};
ghost use Rattle.layer_chain.specs.Changes.{with_layers};
ghost use Rattle.layer_chain.specs.Tree.{IsAt, IsThere, IsWholeTree, layer_at};
ghost use Rattle.volume_model.specs.Purge.{CanFold, CanDrop, folded, dropped};
ghost use Rattle.coalesce.specs.Folding.{snapshots_in, CanFoldAt, HasNoBlock, FoldsPage, Replaces, Drops, KeepsOthers};

use layer_chain::LayerTree;
use vol_units::LayerName;

/// Where a layer that can be folded stands, and the child into which it is folded.
#[derive(Clone, Copy, PartialEq, Eq, Debug)]
pub struct FoldPlaces {
    pub parent: usize,
    pub child: usize,
}

/// Finds both, once for all pages.
pub fn fold_places(tree: &LayerTree, parent: &LayerName, child: &LayerName) -> FoldPlaces
    requires { CanFold (snapshots_in tree.now) tree.now.on parent.now child.now }
    ensures { CanFoldAt tree.now parent.now child.now result }
{
    FoldPlaces {
        parent: place_of(tree, parent),
        child: place_of(tree, child),
    }
}

/// Moves the blocks of a page of the child onto its parent, which is to be removed.
pub fn fold_page(tree: &mut LayerTree, places: FoldPlaces, page: u32)
    requires can { (p : List ℕ) × (c : List ℕ) × CanFoldAt tree.old p c places }
    requires own { page < length (layer_at tree.old.layers places.child).image }
    requires under { page < length (layer_at tree.old.layers places.parent).image }
    ensures folds { (p c : List ℕ) → CanFoldAt tree.old p c places → FoldsPage tree.old tree.new p c page }
    ensures readings { (p c : List ℕ) → CanFoldAt tree.old p c places → KeepsOthers tree.old tree.new p }
    ensures can { (p c : List ℕ) → CanFoldAt tree.old p c places → CanFoldAt tree.new p c places }
    ensures snapshots { snapshots_in tree.new ≡ snapshots_in tree.old }
{
    // That the tree is whole, a proof learns here.
    let _count = tree.count();
    tree.move_page(places.parent, places.child, page);
}

/// The parent goes, and the child, all of whose blocks are the parent's by now, stands in its place.
pub fn replace(tree: &mut LayerTree, parent: &LayerName, child: &LayerName)
    requires can { CanFold (snapshots_in tree.old) tree.old.on parent.now child.now }
    requires empty { HasNoBlock tree.old.layers child.now }
    ensures replaces { Replaces tree.old tree.new parent.now child.now }
    ensures readings { KeepsOthers tree.old tree.new parent.now }
    ensures snapshots { snapshots_in tree.new ≡ folded parent.now child.now (snapshots_in tree.old) }
    ensures rest { tree.new ≡ with_layers tree.old tree.new.layers }
{
    let below = place_of(tree, parent);
    let above = place_of(tree, child);
    tree.replace(below, above);
}

/// The layer goes, on which nothing stands.
pub fn delete_leaf(tree: &mut LayerTree, name: &LayerName)
    requires { CanDrop (snapshots_in tree.old) tree.old.on name.now }
    ensures drops { Drops tree.old tree.new name.now }
    ensures readings { KeepsOthers tree.old tree.new name.now }
    ensures snapshots { snapshots_in tree.new ≡ dropped name.now (snapshots_in tree.old) }
    ensures rest { tree.new ≡ with_layers tree.old tree.new.layers }
{
    let place = place_of(tree, name);
    tree.take_out(place);
}

fn place_of(tree: &LayerTree, name: &LayerName) -> usize
    requires { IsThere (Some name.now) tree.now.layers }
    ensures at { IsAt tree.now.layers name.now result }
    ensures whole { IsWholeTree tree.now }
{
    // Asking for the count tells that the tree is whole.
    let _ = tree.count();
    match tree.index_of(name) {
        Some(place) => place,
        None => unreachable!(),
    }
}
