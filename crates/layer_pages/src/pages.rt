ghost use Rattle.std.specs.Prelude.{◌≡◌, IfOk, IfSome, Some, true, false};
ghost use Rattle.replica_node.specs.Fold.{tree_of};
ghost use Rattle.replica_node.specs.Node.{IsKept};
ghost use Rattle.layer_pages.specs.Chains.{is_over};
ghost use Rattle.layer_pages.specs.Pages.{ArePagesAbove, OthersReadAsBase};
ghost use Rattle.layer_pages.specs.Places.{ArePlaces, OneHasAt, NoneHasAt};

use crate::chain::places_above;
use replica_node::ReplicaNode;
use std::alloc::{AllocError, Global};
use vol_units::LayerName;

/// The pages, rising, of which a layer of the chain itself has a block: from the layer of the name down to the base,
/// which is left out, or all the way down where none is given.
pub fn pages_above(
    node: &ReplicaNode,
    alloc: Global,
    name: &LayerName,
    base: &Option<LayerName>,
) -> Result<Vec<u32>, AllocError>
    requires kept { IsKept node.now (Some name.now) }
    requires over { IfSome base.now (λ b. is_over (tree_of node.now) name.now b ≡ true) }
    ensures ok { IfOk result (λ pages. ArePagesAbove node.now name.now base.now pages.items) }
    ensures others { IfOk result (λ pages. OthersReadAsBase node.now name.now base.now pages.items) }
{
    // That no name comes twice, and how own blocks make readings, a proof learns here.
    let _layers = node.layer_count();
    let _parent = node.head_parent();
    let _blocks = node.block_count();
    let places = places_above(node, alloc, name, base)?;
    let count = node.page_count();
    let mut pages = Vec::with_capacity(alloc, count as usize)?;
    for page in 0..count {
        if one_has(node, &places, page) {
            pages.push(page)?;
        }
    }
    Ok(pages)
}

/// Whether a layer at one of these places itself has a block of the page. It looks no further than the first that has
/// one.
fn one_has(node: &ReplicaNode, places: &[usize], page: u32) -> bool
    requires { ArePlaces node.now places.now }
    ensures some { result ≡ true → OneHasAt node.now places.now page }
    ensures none { result ≡ false → NoneHasAt node.now places.now page }
{
    for i in 0..places.len() {
        if node.has_blocks_at(Some(places[i]), page) {
            return true;
        }
    }
    false
}
