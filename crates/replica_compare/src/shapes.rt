ghost use Rattle.std.specs.Prelude.{◌≡◌, ◌≢◌, ◌↔◌, ℕ, List, length, MatchOption, IsTrue, Option, Some, None};
ghost use Rattle.replica_compare.specs.Comparing.{shape_in, comes_before, ShapeDiffers, AreLayersAlike, IsAlikeInShape, IsFirstName, IsFirstShape};
ghost use Rattle.replica_compare.specs.Least.{IsLeastOf, IsLesser};

use replica_node::ReplicaNode;
use vol_units::LayerName;

/// The first layer whose shape differs, or the head, or none.
pub(crate) fn first_other_shape(one: &ReplicaNode, other: &ReplicaNode) -> Option<Option<LayerName>>
    ensures { MatchOption result
        (IsAlikeInShape one.now other.now)
        (IsFirstShape one.now other.now) }
{
    if let Some(name) = first_other_name(one, other) {
        return Some(Some(name));
    }
    if one.head_parent() != other.head_parent() {
        return Some(None);
    }
    if one.head_number() != other.head_number() {
        return Some(None);
    }
    if one.size() != other.size() {
        return Some(None);
    }
    None
}

/// The first name whose layers differ in their shape, or none.
fn first_other_name(one: &ReplicaNode, other: &ReplicaNode) -> Option<LayerName>
    ensures { MatchOption result
        (AreLayersAlike one.now other.now)
        (IsFirstName one.now other.now) }
{
    let best = least_name(one, other, one, None);
    least_name(one, other, other, best)
}

/// The least of that name and those in `from` whose layers differ in their shape.
fn least_name(
    one: &ReplicaNode,
    other: &ReplicaNode,
    from: &ReplicaNode,
    first: Option<LayerName>,
) -> Option<LayerName>
    requires { (name : List ℕ) → first ≡ Some name → ShapeDiffers one.now other.now name }
    ensures { IsLeastOf (ShapeDiffers one.now other.now) from.now.layers 0 first result }
{
    let mut best = first;
    let count = from.layer_count() - 1;
    for done in 0..count {
        let place = count - 1 - done;
        best = lesser_name(one, other, from.meta(place).name, best);
    }
    best
}

fn lesser_name(
    one: &ReplicaNode,
    other: &ReplicaNode,
    name: LayerName,
    best: Option<LayerName>,
) -> Option<LayerName>
    ensures { IsLesser (ShapeDiffers one.now other.now) name best result }
{
    if !comes_before(&name, &best) {
        return best;
    }
    if !shape_differs(one, other, &name) {
        return best;
    }
    Some(name)
}

/// Whether the name comes before that one, and before none, which is the head.
pub(crate) fn comes_before(name: &LayerName, best: &Option<LayerName>) -> bool
    ensures { result ≡ comes_before name.now best.now }
{
    match best {
        Some(best) => name.as_bytes().cmp(best.as_bytes()).is_lt(),
        None => true,
    }
}

fn shape_differs(one: &ReplicaNode, other: &ReplicaNode, name: &LayerName) -> bool
    ensures { IsTrue result ↔ ShapeDiffers one.now other.now name.now }
{
    shape_of(one, name) != shape_of(other, name)
}

/// The parent and the mark of the layer of a name, if there is one.
fn shape_of(node: &ReplicaNode, name: &LayerName) -> Option<(Option<LayerName>, bool)>
    ensures { result ≡ shape_in node.now.layers name.now }
{
    for place in 0..node.layer_count() - 1 {
        let meta = node.meta(place);
        if meta.name == *name {
            return Some((meta.parent, meta.marked));
        }
    }
    None
}
