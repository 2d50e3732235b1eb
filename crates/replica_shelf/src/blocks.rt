ghost use Rattle.std.specs.Prelude.{◌≡◌, ◌≤◌, ◌*◌, length};
ghost use Rattle.vol_units.specs.declared.size.TheConstants.{BLOCK_BYTES, LARGEST_SIZE};
ghost use Rattle.replica_node.specs.Node.{has_own};
ghost use Rattle.replica_node.specs.Places.{IsPlace, disk_at, own_at};
ghost use Rattle.replica_shelf.specs.Saving.{IsNextOwn};

use replica_node::{PAGE_BLOCKS, ReplicaNode};

/// The first block, from that one on, that the layer at a place, or the head where none is given, itself has; where it
/// has no more, one past its last. Pages without blocks are passed by.
pub(crate) fn next_own(node: &ReplicaNode, place: Option<usize>, from: u32) -> u32
    requires { IsPlace node.now place }
    ensures { IsNextOwn (own_at node.now place) from result }
{
    let count = block_count(node, place);
    let mut block = from;
    while block < count {
        if block % PAGE_BLOCKS == 0 && !node.has_blocks_at(place, block / PAGE_BLOCKS) {
            block += PAGE_BLOCKS;
        } else if has_own(node, place, block) {
            return block;
        } else {
            block += 1;
        }
    }
    block
}

/// Whether the layer itself has the block.
pub(crate) fn has_own(node: &ReplicaNode, place: Option<usize>, block: u32) -> bool
    requires { IsPlace node.now place }
    ensures { result ≡ has_own (own_at node.now place) block }
{
    node.own_block(place, block).is_some()
}

/// The blocks of the volume, which are those of each layer.
pub(crate) fn block_count(node: &ReplicaNode, place: Option<usize>) -> u32
    requires { IsPlace node.now place }
    ensures own { result ≡ length (own_at node.now place) }
    ensures disk { result * BLOCK_BYTES ≡ length (disk_at node.now place) }
    ensures volume { result * BLOCK_BYTES ≡ length node.now.disk }
    ensures few { result * BLOCK_BYTES ≤ LARGEST_SIZE }
{
    // What the largest size is, a proof learns here.
    let _size = node.size();
    node.block_count()
}
