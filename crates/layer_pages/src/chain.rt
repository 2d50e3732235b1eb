ghost use Rattle.std.specs.Prelude.{◌≡◌, IfOk};
ghost use Rattle.std.specs.Str.{bytes_eq};
ghost use Rattle.vol_units.specs.Chain.{is_named};
ghost use Rattle.replica_node.specs.Fold.{tree_of};
ghost use Rattle.layer_pages.specs.Chains.{is_over};
ghost use Rattle.layer_pages.specs.Places.{ArePlacesAbove};

use replica_node::ReplicaNode;
use std::alloc::{AllocError, Global};
use vol_units::LayerName;

/// Whether the base is the layer of the name, or one on which that stands.
pub fn is_over(node: &ReplicaNode, name: &LayerName, base: &LayerName) -> bool
    ensures { result ≡ is_over (tree_of node.now) name.now base.now }
{
    let mut wanted = Some(*name);
    for place in 0..node.layer_count() - 1 {
        let meta = node.meta(place);
        if is_named(&wanted, &meta.name) {
            if is_one(base, &meta.name) {
                return true;
            }
            wanted = meta.parent;
        }
    }
    false
}

/// The places of the layers of a chain, from the one of the name down to the base, which is left out.
pub(crate) fn places_above(
    node: &ReplicaNode,
    alloc: Global,
    name: &LayerName,
    base: &Option<LayerName>,
) -> Result<Vec<usize>, AllocError>
    ensures { IfOk result (λ places. ArePlacesAbove node.now name.now base.now places.items) }
{
    let count = node.layer_count() - 1;
    let mut places = Vec::with_capacity(alloc, count)?;
    let mut wanted = Some(*name);
    for place in 0..count {
        let meta = node.meta(place);
        if is_named(&wanted, &meta.name) {
            if is_named(base, &meta.name) {
                return Ok(places);
            }
            places.push(place)?;
            wanted = meta.parent;
        }
    }
    Ok(places)
}

/// Whether that name is wanted.
fn is_named(wanted: &Option<LayerName>, name: &LayerName) -> bool
    ensures { result ≡ is_named wanted.now name.now }
{
    match wanted {
        Some(wanted) => is_one(wanted, name),
        None => false,
    }
}

/// Whether two names are one.
fn is_one(one: &LayerName, other: &LayerName) -> bool
    ensures { result ≡ bytes_eq one.now other.now }
{
    one.as_bytes() == other.as_bytes()
}
