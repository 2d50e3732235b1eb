ghost use Rattle.std.specs.Prelude.{◌≡◌, ◌↔◌, ◌*◌, ℕ, ◌<◌, length, MatchOption, IsTrue, true, Some};
ghost use Rattle.vol_units.specs.declared.size.TheConstants.{BLOCK_BYTES};
ghost use Rattle.replica_node.specs.Node.{IsKept};
ghost use Rattle.replica_node.specs.Places.{kept_at};
ghost use Rattle.replica_compare.specs.Comparing.{ReadsAlikeAt};
ghost use Rattle.replica_compare.specs.Blocks.{IsPair, IsTwin, AreTwins, AllAlikeAt, DiffersAt};
ghost use Rattle.replica_compare.specs.Holders.{NeitherHas, AreHoldersAt, IsSettled, AreHeadsSettled};

use crate::holders::Holders;
use crate::twins::Twin;
use replica_node::ReplicaNode;
use vol_units::LayerName;

/// Whether all layers and the heads read the same at a block, as far as a look at the holders of its page tells. Where
/// no holder reads otherwise, no other layer does.
pub(crate) fn all_alike(
    one: &ReplicaNode,
    other: &ReplicaNode,
    twins: &[Twin],
    holders: &Holders,
    block: u32,
) -> bool
    requires pair { IsPair one.now other.now }
    requires twins { AreTwins one.now other.now (length one.now.layers) twins.now }
    requires holders { AreHoldersAt one.now other.now block holders.now }
    requires inside { block * BLOCK_BYTES < length one.now.disk }
    ensures { result ≡ true → AllAlikeAt one.now other.now block }
{
    holders_settle(one, other, twins, holders, block) && heads_settle(one, other, block)
}

/// Whether each layer that reads otherwise at a block reads there as its parent.
fn holders_settle(
    one: &ReplicaNode,
    other: &ReplicaNode,
    twins: &[Twin],
    holders: &Holders,
    block: u32,
) -> bool
    requires pair { IsPair one.now other.now }
    requires twins { AreTwins one.now other.now (length one.now.layers) twins.now }
    requires holders { AreHoldersAt one.now other.now block holders.now }
    requires inside { block * BLOCK_BYTES < length one.now.disk }
    ensures { result ≡ true → (place : ℕ) → place < length one.now.layers
        → IsSettled one.now other.now (kept_at one.now.layers place).meta.name block }
{
    for i in 0..holders.count {
        let place = holders.places[i];
        if !settles(one, other, twins[place], place, block) {
            return false;
        }
    }
    true
}

/// The same of the layer at a place.
fn settles(one: &ReplicaNode, other: &ReplicaNode, twin: Twin, place: usize, block: u32) -> bool
    requires pair { IsPair one.now other.now }
    requires stands { IsTwin one.now other.now place twin }
    requires within { place < length one.now.layers }
    requires inside { block * BLOCK_BYTES < length one.now.disk }
    ensures { result ≡ true
        → IsSettled one.now other.now (kept_at one.now.layers place).meta.name block }
{
    match own_differs(one, other, twin, place, block) {
        Some(differs) => !differs,
        None => true,
    }
}

/// The same of the heads.
fn heads_settle(one: &ReplicaNode, other: &ReplicaNode, block: u32) -> bool
    requires inside { block * BLOCK_BYTES < length one.now.disk }
    requires under { block * BLOCK_BYTES < length other.now.disk }
    ensures { result ≡ true → AreHeadsSettled one.now other.now block }
{
    match (one.own_block(None, block), other.own_block(None, block)) {
        (None, None) => true,
        _ => one.same_block(other, block),
    }
}

/// Whether the layer at a place, where one of both itself has the block, reads otherwise there. Where neither has it
/// both read as their parent, and no byte is looked at.
pub(crate) fn own_differs(
    one: &ReplicaNode,
    other: &ReplicaNode,
    twin: Twin,
    place: usize,
    block: u32,
) -> Option<bool>
    requires pair { IsPair one.now other.now }
    requires stands { IsTwin one.now other.now place twin }
    requires within { place < length one.now.layers }
    requires inside { block * BLOCK_BYTES < length one.now.disk }
    ensures { let name = (kept_at one.now.layers place).meta.name in MatchOption result
        (NeitherHas one.now other.now name block)
        (λ differs. IsTrue differs ↔ DiffersAt one.now other.now block name) }
{
    let upper = one.own_block(Some(place), block);
    let lower = other.own_block(Some(twin.other), block);
    match (upper, lower) {
        (None, None) => None,
        (Some(upper), Some(lower)) => Some(upper != lower),
        _ => Some(block_differs(one, other, one.meta(place).name, block)),
    }
}

/// Whether the layers of a name read otherwise at a block.
fn block_differs(one: &ReplicaNode, other: &ReplicaNode, name: LayerName, block: u32) -> bool
    requires one { IsKept one.now (Some name) }
    requires other { IsKept other.now (Some name) }
    requires inside { block * BLOCK_BYTES < length one.now.disk }
    requires under { block * BLOCK_BYTES < length other.now.disk }
    ensures { IsTrue result ↔ (ReadsAlikeAt one.now other.now (Some name) block → ⊥) }
{
    let name = Some(name);
    one.block(&name, block) != other.block(&name, block)
}
