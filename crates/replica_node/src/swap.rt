ghost use Rattle.std.specs.Prelude.{◌≡◌, ◌+◌, ◌*◌, ◌/◌, ◌≤◌, ◌<◌, ◌^◌, length, All, is_some, true};
ghost use Rattle.sparse_image.specs.Disk.{bytes_of};
ghost use Rattle.sparse_image.specs.Image.{ChangesBlock, block_at, has_page};
ghost use Rattle.sparse_image.specs.Listed.{listed};
ghost use Rattle.layer_chain.specs.Changes.{with_head};
ghost use Rattle.replica_node.specs.Node.{IsNode};
ghost use Rattle.replica_node.specs.Room.{HasPages, PutsBlocks, blocks_from};

use layer_chain::LayerTree;
use sparse_image::{BLOCK_BYTES, Blocks, PAGE_BLOCKS, Place};

/// Swaps blocks with those that the head of a tree has from a block on. It takes no memory.
pub(crate) fn swap_into(tree: &mut LayerTree, first: u32, blocks: &mut Blocks)
    requires full { All (λ b. is_some b ≡ true) blocks.old }
    requires pages { HasPages tree.old.head (blocks_from first (length blocks.old)) }
    requires inside { first + length blocks.old ≤ length tree.old.head * PAGE_BLOCKS }
    requires numbers { first + length blocks.old < 2 ^ 32 }
    requires node { IsNode tree.old (length tree.old.head * PAGE_BLOCKS) }
    ensures puts { PutsBlocks tree.old tree.new first blocks.old }
    ensures back { blocks.new ≡ listed (λ i. block_at tree.old.head (first + i)) (length blocks.old) }
{
    swap_all(tree, first, &mut blocks.slots);
}

/// The same of their slots.
fn swap_all(tree: &mut LayerTree, first: u32, slots: &mut [Place])
    requires full { All (λ b. is_some b ≡ true) slots.old }
    requires pages { HasPages tree.old.head (blocks_from first (length slots.old)) }
    requires inside { first + length slots.old ≤ length tree.old.head * PAGE_BLOCKS }
    requires numbers { first + length slots.old < 2 ^ 32 }
    requires node { IsNode tree.old (length tree.old.head * PAGE_BLOCKS) }
    ensures puts { PutsBlocks tree.old tree.new first slots.old }
    ensures back { slots.new ≡ listed (λ i. block_at tree.old.head (first + i)) (length slots.old) }
{
    for i in 0..slots.len() {
        swap_block(tree, first + i as u32, &mut slots[i]);
    }
}

/// Swaps the block in a slot with that of the head of a tree.
fn swap_block(tree: &mut LayerTree, block: u32, slot: &mut Place)
    requires full { is_some slot.old ≡ true }
    requires page { has_page tree.old.head (block / PAGE_BLOCKS) ≡ true }
    ensures changes { ChangesBlock tree.old.head tree.new.head block slot.old }
    ensures rest { tree.new ≡ with_head tree.old tree.new.head }
    ensures whole { length (bytes_of slot.old) ≡ BLOCK_BYTES }
    ensures back { slot.new ≡ block_at tree.old.head block }
{
    if let Some(new) = slot.block.take() {
        slot.block = tree.put(block, new);
    }
}
