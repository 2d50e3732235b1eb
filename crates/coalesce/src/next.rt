ghost use Rattle.std.specs.Prelude.{◌≡◌, ◌+◌, ◌<◌, length, MatchOption};
ghost use Rattle.layer_chain.specs.Tree.{IsWholeTree};
ghost use Rattle.volume_model.specs.Purge.{IsPurged, IsFirst, gone};
ghost use Rattle.coalesce.specs.Folding.{snapshots_in};
ghost use Rattle.coalesce.specs.Search.{GoesAt, StaysAt, IsBest, goes_before};
ghost use Rattle.coalesce.specs.Way.{IsWayOf, HasNoWay};

use layer_chain::{Child, Children, LayerTree};
use vol_units::LayerName;
use volume_model::FoldOrDrop;

/// What is to be folded or dropped next: the first, in byte order of the names of the layers that go.
pub fn next_fold(tree: &LayerTree) -> Option<FoldOrDrop>
    ensures { MatchOption result
        (IsPurged (snapshots_in tree.now) tree.now.on)
        (λ part. IsFirst (snapshots_in tree.now) tree.now.on part) }
{
    let mut best = None;
    let mut place = tree.count() - 1;
    while place > 0 {
        // The oldest layer comes first: where names grow with time, a look at the later ones' names is enough.
        place -= 1;
        best = best_from(tree, place, best);
    }
    best
}

/// How the layer of the name can go: folded into its one child, or dropped. One that is not there has no way.
pub fn way_of(tree: &LayerTree, name: &LayerName) -> Option<FoldOrDrop>
    ensures { MatchOption result
        (HasNoWay (snapshots_in tree.now) tree.now.on name.now)
        (λ part. IsWayOf (snapshots_in tree.now) tree.now.on name.now part) }
{
    // Asking for the count tells that the tree is whole.
    let _ = tree.count();
    match tree.index_of(name) {
        Some(place) => goes_at(tree, place),
        None => None,
    }
}

/// The first from this place on, of the first from the place behind it on.
fn best_from(tree: &LayerTree, place: usize, best: Option<FoldOrDrop>) -> Option<FoldOrDrop>
    requires within { place < length tree.now.layers }
    requires whole { IsWholeTree tree.now }
    requires best { IsBest tree.now (place + 1) best }
    ensures { IsBest tree.now place result }
{
    if !goes_before(&tree.meta(place).name, &best) {
        return best;
    }
    match goes_at(tree, place) {
        Some(found) => Some(found),
        None => best,
    }
}

/// Whether a layer of that name would go before the best so far.
fn goes_before(name: &LayerName, best: &Option<FoldOrDrop>) -> bool
    ensures { result ≡ goes_before name.now best.now }
{
    match best {
        Some(best) => name.as_bytes().cmp(gone(best).as_bytes()).is_lt(),
        None => true,
    }
}

/// How the layer at a place can go.
fn goes_at(tree: &LayerTree, place: usize) -> Option<FoldOrDrop>
    requires within { place < length tree.now.layers }
    requires whole { IsWholeTree tree.now }
    ensures { MatchOption result (StaysAt tree.now place) (λ part. GoesAt tree.now place part) }
{
    let meta = tree.meta(place);
    if !meta.marked {
        return None;
    }
    match tree.standing_on(place) {
        Children::None => Some(FoldOrDrop::Drop(meta.name)),
        Children::One(Child::Layer(child)) => Some(FoldOrDrop::Fold {
            parent: meta.name,
            child: tree.meta(child).name,
        }),
        Children::One(Child::Head) => None,
        Children::More => None,
    }
}

/// The layer that goes.
fn gone(part: &FoldOrDrop) -> LayerName
    ensures { result ≡ gone part.now }
{
    match *part {
        FoldOrDrop::Fold { parent, child: _ } => parent,
        FoldOrDrop::Drop(name) => name,
    }
}
