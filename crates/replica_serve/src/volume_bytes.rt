//! The bytes of a replica's head, from any place on.

ghost use Rattle.std.specs.Prelude.{◌≡◌, ◌+◌, ◌*◌, ◌++◌, ◌<◌, ◌≤◌, length, IfOk, OnOk};
ghost use Rattle.vol_units.specs.Bytes.{bytes_at, with_bytes_at};

use replica_node::ReplicaNode;
use sparse_image::{BLOCK_BYTES, Blocks};
use std::alloc::{AllocError, Global};
use vol_units::BlockRange;

/// Appends the bytes of a range of the head. None is copied twice.
pub(crate) fn append_bytes(
    node: &ReplicaNode,
    at: usize,
    count: usize,
    into: &mut Vec<u8>,
) -> Result<(), AllocError>
    requires { at + count ≤ length node.now.disk }
    ensures { OnOk result (into.new.items ≡ into.old.items ++ bytes_at node.now.disk at count) }
{
    // What the largest size is, a proof learns here.
    let _size = node.size();
    let mut done = 0;
    while done < count {
        let place = at + done;
        let start = place % BLOCK_BYTES;
        let piece = (BLOCK_BYTES - start).min(count - done);
        let block = node.block(&None, (place / BLOCK_BYTES) as u32);
        into.extend_from_slice(&block[start..start + piece])?;
        done += piece;
    }
    Ok(())
}

/// Writes bytes over a range of the head. A block that the head itself has is written in place.
pub(crate) fn put_bytes(
    alloc: Global,
    node: &mut ReplicaNode,
    at: usize,
    bytes: &[u8],
) -> Result<(), AllocError>
    requires { at + length bytes.now ≤ length node.old.disk }
    ensures { OnOk result (node.new.disk ≡ with_bytes_at node.old.disk at bytes.now) }
{
    // What the largest size is, a proof learns here.
    let _size = node.size();
    let mut done = 0;
    while done < bytes.len() {
        let place = at + done;
        let start = place % BLOCK_BYTES;
        let piece = (BLOCK_BYTES - start).min(bytes.len() - done);
        let block = (place / BLOCK_BYTES) as u32;
        put_part(alloc, node, block, start, &bytes[done..done + piece])?;
        done += piece;
    }
    Ok(())
}

/// Writes bytes over a part of a block, from a place within it on.
fn put_part(
    alloc: Global,
    node: &mut ReplicaNode,
    block: u32,
    start: usize,
    bytes: &[u8],
) -> Result<(), AllocError>
    requires part { start + length bytes.now ≤ BLOCK_BYTES }
    requires inside { block * BLOCK_BYTES < length node.old.disk }
    ensures { OnOk result (node.new.disk
        ≡ with_bytes_at node.old.disk (block * BLOCK_BYTES + start) bytes.now) }
{
    // That the disk is whole blocks, a proof learns here.
    let _count = node.block_count();
    if node.overwrite(block, start, bytes) {
        return Ok(());
    }
    if bytes.len() == BLOCK_BYTES {
        return put_block(alloc, node, block, bytes);
    }
    let whole = merged(alloc, node, block, start, bytes)?;
    put_block(alloc, node, block, &whole)
}

/// What a block reads as once these bytes are written over a part of it.
fn merged(
    alloc: Global,
    node: &ReplicaNode,
    block: u32,
    start: usize,
    bytes: &[u8],
) -> Result<Vec<u8>, AllocError>
    requires part { start + length bytes.now ≤ BLOCK_BYTES }
    requires inside { block * BLOCK_BYTES < length node.now.disk }
    ensures { IfOk result (λ whole. whole.items ≡ with_bytes_at
        (bytes_at node.now.disk (block * BLOCK_BYTES) BLOCK_BYTES) start bytes.now) }
{
    let old = node.block(&None, block);
    let mut whole = Vec::with_capacity(alloc, BLOCK_BYTES)?;
    whole.extend_from_slice(&old[..start])?;
    whole.extend_from_slice(bytes)?;
    whole.extend_from_slice(&old[start + bytes.len()..])?;
    Ok(whole)
}

/// Puts a whole block into the head, in a box of its own.
fn put_block(
    alloc: Global,
    node: &mut ReplicaNode,
    block: u32,
    bytes: &[u8],
) -> Result<(), AllocError>
    requires inside { block * BLOCK_BYTES < length node.old.disk }
    requires whole { length bytes.now ≡ BLOCK_BYTES }
    ensures { OnOk result (node.new.disk
        ≡ with_bytes_at node.old.disk (block * BLOCK_BYTES) bytes.now) }
{
    // That the disk is whole blocks, a proof learns here.
    let _count = node.block_count();
    let mut fresh = Blocks::with_count(alloc, 1)?;
    fresh.fill(bytes);
    let range = BlockRange {
        first: block,
        end: block + 1,
    };
    node.make_room(alloc, range)?;
    node.write_blocks(range, &mut fresh);
    Ok(())
}
