ghost use Rattle.std.specs.Prelude.{◌<◌, OnOk, length};
ghost use Rattle.outer_traits.specs.Causes.{HasOuterCause};
ghost use Rattle.shelf_traits.specs.Files.{Both, OthersStay};
ghost use Rattle.replica_node.specs.Places.{IsPlace, disk_at, own_at};
ghost use Rattle.replica_shelf.specs.Saving.{IsImageOf, HoldsBelow, PutsBlock};

use crate::blocks::{block_count, next_own};
use replica_node::{BLOCK_BYTES, ReplicaNode};
use shelf_traits::{Outer, Shelves};

/// Writes the own blocks of the layer at a place, or of the head where none is given, into an image of the volume's
/// length. Each block goes to the shelf as it is lent.
pub(crate) fn put_image<S: Shelves>(
    node: &ReplicaNode,
    place: Option<usize>,
    image: &str,
    shelf: u8,
    shelves: &mut S,
) -> Outer<()>
    requires { IsPlace node.now place }
    ensures ok { OnOk result (Both (S.holds shelves.old) (S.holds shelves.new)
        (λ old new. IsImageOf (new shelf) image.now (disk_at node.now place) (own_at node.now place))) }
    ensures others { Both (S.holds shelves.old) (S.holds shelves.new) (OthersStay shelf image.now) }
    ensures cause { HasOuterCause (S.faults shelves.old) (S.faults shelves.new) result }
{
    put_empty(node, place, image, shelf, shelves)?;
    let count = block_count(node, place);
    let mut block = next_own(node, place, 0);
    while block < count {
        put_block(node, place, block, image, shelf, shelves)?;
        block = next_own(node, place, block + 1);
    }
    Ok(())
}

/// An image of the volume's length, with no block.
fn put_empty<S: Shelves>(
    node: &ReplicaNode,
    place: Option<usize>,
    image: &str,
    shelf: u8,
    shelves: &mut S,
) -> Outer<()>
    requires { IsPlace node.now place }
    ensures ok { OnOk result (Both (S.holds shelves.old) (S.holds shelves.new)
        (λ old new. HoldsBelow (new shelf) image.now (disk_at node.now place) (own_at node.now place) 0)) }
    ensures others { Both (S.holds shelves.old) (S.holds shelves.new) (OthersStay shelf image.now) }
    ensures cause { HasOuterCause (S.faults shelves.old) (S.faults shelves.new) result }
{
    // That each disk has the volume's length, a proof learns here.
    let _count = block_count(node, place);
    shelves.remove(shelf, image)?;
    shelves.set_len(shelf, image, node.size() as u64)
}

/// Writes one block, where the layer itself has it.
fn put_block<S: Shelves>(
    node: &ReplicaNode,
    place: Option<usize>,
    block: u32,
    image: &str,
    shelf: u8,
    shelves: &mut S,
) -> Outer<()>
    requires place { IsPlace node.now place }
    requires inside { block < length (own_at node.now place) }
    ensures ok { OnOk result (Both (S.holds shelves.old) (S.holds shelves.new)
        (PutsBlock shelf image.now (disk_at node.now place) (own_at node.now place) block)) }
    ensures others { Both (S.holds shelves.old) (S.holds shelves.new) (OthersStay shelf image.now) }
    ensures cause { HasOuterCause (S.faults shelves.old) (S.faults shelves.new) result }
{
    // How many blocks there are at most, a proof learns here.
    let _count = block_count(node, place);
    match node.own_block(place, block) {
        None => Ok(()),
        Some(bytes) => shelves.write_at(shelf, image, block as u64 * BLOCK_BYTES as u64, bytes),
    }
}
