ghost use Rattle.std.specs.Prelude.{◌≡◌, ◌↔◌, ℕ, ◌+◌, ◌*◌, ◌<◌, ◌≤◌, length, MatchOption, IsTrue, Option, Some, None, if◌then◌else◌};
ghost use Rattle.vol_units.specs.declared.size.TheConstants.{BLOCK_BYTES, PAGE_BYTES};
ghost use Rattle.sparse_image.specs.declared.block.TheConstants.{PAGE_BLOCKS};
ghost use Rattle.replica_node.specs.Places.{kept_at};
ghost use Rattle.replica_compare.specs.Comparing.{comes_before, IsAlikeInShape, AreAlike, IsFirstReading};
ghost use Rattle.replica_compare.specs.Least.{IsLeastOf};
ghost use Rattle.replica_compare.specs.Blocks.{IsPair, AreTwins, AllAlikeAt, DiffersAt, TellsFrom, IsFirstAt, IsFirstBelow, stands_before, told_of};
ghost use Rattle.replica_compare.specs.Holders.{AreBare, AreHoldersAt};

use crate::alike::{all_alike, own_differs};
use crate::holders::{Holders, find_bare, find_holders};
use crate::shapes::comes_before;
use crate::twins::{Twin, find_twins};
use replica_node::{PAGE_BLOCKS, ReplicaNode};
use vol_units::{LayerName, MOST_LAYERS};

/// The first layer that reads otherwise, where the shapes are alike, and the first block in it. It goes over the
/// blocks once, page by page, and at each over the holders of its page. Only where one of these reads otherwise it
/// goes over all layers.
pub(crate) fn first_other_reading(
    one: &ReplicaNode,
    other: &ReplicaNode,
) -> Option<(Option<LayerName>, u32)>
    requires { IsAlikeInShape one.now other.now }
    ensures { MatchOption result (AreAlike one.now other.now)
        (λ found. IsFirstReading one.now other.now found.0 found.1) }
{
    learn_pair(one, other);
    let none = Twin {
        other: 0,
        parent: None,
    };
    let mut twins = [none; MOST_LAYERS];
    find_twins(one, other, &mut twins);
    let mut bare = [false; MOST_LAYERS];
    find_bare(one, other, &mut bare);
    let mut best = None;
    for page in 0..one.page_count() {
        best = lesser_in_page(one, other, &twins, &bare, page, best);
    }
    best
}

/// Tells a proof that no name comes twice, and how own blocks make readings.
fn learn_pair(one: &ReplicaNode, other: &ReplicaNode)
    requires { IsAlikeInShape one.now other.now }
    ensures pair { IsPair one.now other.now }
    ensures most { length one.now.layers ≤ MOST_LAYERS }
{
    let _layers = one.layer_count();
    let _layers = other.layer_count();
    let _blocks = one.block_count();
    let _blocks = other.block_count();
}

/// Of the first reading so far that differs and those of one page more, the one that comes first.
fn lesser_in_page(
    one: &ReplicaNode,
    other: &ReplicaNode,
    twins: &[Twin],
    bare: &[bool],
    page: u32,
    first: Option<(Option<LayerName>, u32)>,
) -> Option<(Option<LayerName>, u32)>
    requires pair { IsPair one.now other.now }
    requires twins { AreTwins one.now other.now (length one.now.layers) twins.now }
    requires bare { AreBare one.now other.now (length one.now.layers) bare.now }
    requires inside { page * PAGE_BYTES < length one.now.disk }
    requires first { IsFirstBelow one.now other.now (page * PAGE_BLOCKS) first }
    ensures { IsFirstBelow one.now other.now ((page + 1) * PAGE_BLOCKS) result }
{
    // What the largest size is, and that it is whole pages, a proof learns here.
    let _size = one.size();
    let _pages = one.page_count();
    let holders = find_holders(one, other, bare, page);
    let start = page * PAGE_BLOCKS;
    let mut best = first;
    for block in start..start + PAGE_BLOCKS {
        best = lesser_reading(one, other, twins, &holders, block, best);
    }
    best
}

/// The same of one block more.
fn lesser_reading(
    one: &ReplicaNode,
    other: &ReplicaNode,
    twins: &[Twin],
    holders: &Holders,
    block: u32,
    best: Option<(Option<LayerName>, u32)>,
) -> Option<(Option<LayerName>, u32)>
    requires pair { IsPair one.now other.now }
    requires twins { AreTwins one.now other.now (length one.now.layers) twins.now }
    requires holders { AreHoldersAt one.now other.now block holders.now }
    requires inside { block * BLOCK_BYTES < length one.now.disk }
    requires first { IsFirstBelow one.now other.now block best }
    ensures { IsFirstBelow one.now other.now (block + 1) result }
{
    if all_alike(one, other, twins, holders, block) {
        return best;
    }
    let Some(layer) = first_at(one, other, twins, block) else {
        return best;
    };
    if !stands_before(&layer, &best) {
        return best;
    }
    Some((layer, block))
}

/// Whether the layer, or the head where none is named, comes before the one that was found.
fn stands_before(layer: &Option<LayerName>, best: &Option<(Option<LayerName>, u32)>) -> bool
    ensures { result ≡ stands_before layer.now best.now }
{
    match (layer, best) {
        (_, None) => true,
        (Some(name), Some((found, _))) => comes_before(name, found),
        (None, Some(_)) => false,
    }
}

/// The first layer that reads otherwise at a block, or the head, or none.
fn first_at(
    one: &ReplicaNode,
    other: &ReplicaNode,
    twins: &[Twin],
    block: u32,
) -> Option<Option<LayerName>>
    requires pair { IsPair one.now other.now }
    requires twins { AreTwins one.now other.now (length one.now.layers) twins.now }
    requires inside { block * BLOCK_BYTES < length one.now.disk }
    ensures { MatchOption result
        (AllAlikeAt one.now other.now block)
        (IsFirstAt one.now other.now block) }
{
    if let Some(name) = least_at(one, other, twins, block) {
        return Some(Some(name));
    }
    if one.same_block(other, block) {
        return None;
    }
    Some(None)
}

/// The least name of the layers that read otherwise at a block.
fn least_at(one: &ReplicaNode, other: &ReplicaNode, twins: &[Twin], block: u32) -> Option<LayerName>
    requires pair { IsPair one.now other.now }
    requires twins { AreTwins one.now other.now (length one.now.layers) twins.now }
    requires inside { block * BLOCK_BYTES < length one.now.disk }
    ensures { IsLeastOf (DiffersAt one.now other.now block) one.now.layers 0 None result }
{
    let mut differs = [false; MOST_LAYERS];
    let mut best = None;
    let count = one.layer_count() - 1;
    // From the oldest on, so that each layer is told of after its parent.
    for done in 0..count {
        let place = count - 1 - done;
        let other_here = reads_otherwise(one, other, twins, &differs, place, block);
        differs[place] = other_here;
        best = lesser_of(other_here, one.meta(place).name, best);
    }
    best
}

/// The one of both names that comes first, where the first counts.
fn lesser_of(counts: bool, name: LayerName, best: Option<LayerName>) -> Option<LayerName>
    ensures { result
        ≡ (if counts then (if comes_before name best then Some name else best) else best) }
{
    if counts && comes_before(&name, &best) {
        Some(name)
    } else {
        best
    }
}

/// Whether the layer at a place reads otherwise at a block, where that is known of all older ones.
fn reads_otherwise(
    one: &ReplicaNode,
    other: &ReplicaNode,
    twins: &[Twin],
    differs: &[bool],
    place: usize,
    block: u32,
) -> bool
    requires pair { IsPair one.now other.now }
    requires twins { AreTwins one.now other.now (length one.now.layers) twins.now }
    requires told { TellsFrom one.now other.now block (place + 1) differs.now }
    requires within { place < length one.now.layers }
    requires inside { block * BLOCK_BYTES < length one.now.disk }
    ensures { IsTrue result
        ↔ DiffersAt one.now other.now block (kept_at one.now.layers place).meta.name }
{
    let twin = twins[place];
    match own_differs(one, other, twin, place, block) {
        Some(differs_here) => differs_here,
        None => is_told(differs, twin.parent),
    }
}

/// What is told of the layer at a place; of none it is nothing.
fn is_told(differs: &[bool], place: Option<usize>) -> bool
    requires { (p : ℕ) → place ≡ Some p → p < length differs.now }
    ensures { result ≡ told_of differs.now place }
{
    match place {
        Some(place) => differs[place],
        None => false,
    }
}
