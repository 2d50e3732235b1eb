ghost use Rattle.std.specs.Prelude.{◌≡◌, ◌↔◌, ◌+◌, ◌≤◌, ◌++◌, length, slice_range, IsTrue, OnOk};
ghost use Rattle.std.specs.Option.{option_copied};
ghost use Rattle.vol_units.specs.Bytes.{zeros};
ghost use Rattle.sparse_image.specs.Disk.{bytes_of};
ghost use Rattle.replica_node.specs.Node.{block_in};

use layer_chain::LayerTree;
use sparse_image::{BLOCK_BYTES, Block};
use std::alloc::AllocError;
use vol_units::LayerName;

/// What a block that is not there reads as.
static ZEROS: Block = [0; BLOCK_BYTES];

/// What a layer of the tree, or its head, reads as at a block.
pub(crate) fn block_of<'a>(tree: &'a LayerTree, layer: &Option<LayerName>, block: u32) -> &'a [u8]
    ensures value { result.now ≡ bytes_of (block_in tree.now layer.now block) }
{
    let found = match layer {
        Some(name) => tree.read_at(name, block),
        None => tree.read_head(block),
    };
    bytes_or_zeros(found)
}

/// Whether two blocks read the same.
pub(crate) fn reads_same(one: Option<&Block>, other: Option<&Block>) -> bool
    ensures { IsTrue result ↔ (bytes_of (option_copied one.entry) ≡ bytes_of (option_copied other.entry)) }
{
    match (one, other) {
        (None, None) => true,
        _ => bytes_or_zeros(one) == bytes_or_zeros(other),
    }
}

/// What a block reads as, where it may not be there.
fn bytes_or_zeros(found: Option<&Block>) -> &[u8]
    ensures { result.now ≡ bytes_of (option_copied found.entry) }
{
    match found {
        Some(bytes) => bytes,
        None => zero_block(),
    }
}

#[tactic(auto, unfolding(vol_units::specs::Bytes::zeros))]
pub(crate) fn zero_block() -> &'static [u8]
    ensures value { result.now ≡ zeros BLOCK_BYTES }
    ensures whole { length result.now ≡ BLOCK_BYTES }
{
    &ZEROS
}

/// Appends a part of a block.
pub(crate) fn append_part(
    block: &[u8],
    start: usize,
    count: usize,
    into: &mut Vec<u8>,
) -> Result<(), AllocError>
    requires { start + count ≤ length block.now }
    ensures { OnOk result (into.new.items ≡ into.old.items ++ slice_range block.now start (start + count)) }
{
    into.extend_from_slice(&block[start..start + count])
}
