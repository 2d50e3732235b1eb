ghost use Rattle.std.specs.Prelude.{◌≡◌, ℕ, ◌<◌, ◌≤◌, length, true, false};
ghost use Rattle.replica_node.specs.Fold.{is_in};
ghost use Rattle.replica_node.specs.Places.{kept_at};
ghost use Rattle.replica_compare.specs.Holders.{NeitherHas, AreBare, AreHolders};

use replica_node::ReplicaNode;
use vol_units::{LayerName, MOST_LAYERS};

/// The places of the layers that themselves have blocks of a page, in one of both replicas.
#[derive(Drop)]
pub(crate) struct Holders {
    pub places: [usize; MOST_LAYERS],
    pub count: usize,
}

/// Tells of each layer whether neither replica has a block in it.
pub(crate) fn find_bare(one: &ReplicaNode, other: &ReplicaNode, bare: &mut [bool])
    requires { length one.now.layers ≤ length bare.old }
    ensures { AreBare one.now other.now (length one.now.layers) bare.new }
{
    for place in 0..one.layer_count() - 1 {
        bare[place] = is_bare(one, other, &one.meta(place).name);
    }
}

/// Whether neither has a block in its layer of the name.
fn is_bare(one: &ReplicaNode, other: &ReplicaNode, name: &LayerName) -> bool
    ensures { result ≡ true → (block : ℕ) → NeitherHas one.now other.now name.now block }
{
    one.is_bare(name) && other.is_bare(name)
}

/// Finds the holders of a page. No layer that is told to be bare is asked for it.
pub(crate) fn find_holders(
    one: &ReplicaNode,
    other: &ReplicaNode,
    bare: &[bool],
    page: u32,
) -> Holders
    requires { AreBare one.now other.now (length one.now.layers) bare.now }
    ensures { AreHolders one.now other.now page (length one.now.layers) result }
{
    let mut holders = Holders {
        places: [0; MOST_LAYERS],
        count: 0,
    };
    for place in 0..one.layer_count() - 1 {
        if is_holder(one, other, bare, page, place) {
            holders.places[holders.count] = place;
            holders.count += 1;
        }
    }
    holders
}

/// Whether one of both has blocks of the page in its layer of the name that stands at a place of the one.
fn is_holder(one: &ReplicaNode, other: &ReplicaNode, bare: &[bool], page: u32, place: usize) -> bool
    requires bare { AreBare one.now other.now (length one.now.layers) bare.now }
    requires within { place < length one.now.layers }
    ensures { result ≡ false → (block : ℕ) → is_in page block ≡ true
        → NeitherHas one.now other.now (kept_at one.now.layers place).meta.name block }
{
    if bare[place] {
        return false;
    }
    let name = &one.meta(place).name;
    one.has_blocks(name, page) || other.has_blocks(name, page)
}
