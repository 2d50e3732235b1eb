use crate::fixed::put_older_files;
use replica_node::{BLOCK_BYTES, BlockRange, Blocks, LayerName, ReplicaNode, VolumeSize};
use replica_shelf::{HeadMeta, SaveMeta, save};
use shelf_traits::Shelves;
use std::alloc::Global;
use std::test::Fail;
use vol_units::{MOST_LAYERS, TimeText};

pub fn size() -> Result<VolumeSize, Fail> {
    Ok(VolumeSize::new(2_097_152)?)
}

fn put(node: &mut ReplicaNode, alloc: Global, block: u32, byte: u8) -> Result<(), Fail> {
    let mut blocks = Blocks::new(alloc);
    blocks.push(Box::new(alloc, [byte; BLOCK_BYTES])?)?;
    if block >= 512 || node.block_count() < 512 || blocks.len() != 1 || !blocks.is_full() {
        return Err(Fail::new("no block"));
    }
    let range = BlockRange {
        first: block,
        end: block + 1,
    };
    node.make_room(alloc, range)?;
    node.write_blocks(range, &mut blocks);
    Ok(())
}

/// A snapshot of the head, whose number stays below a thousand.
pub fn keep(node: &mut ReplicaNode, alloc: Global, name: &[u8]) -> Result<(), Fail> {
    let (name, spare) = (LayerName::read(name)?, node.spare_head(alloc)?);
    if node.layer_count() >= MOST_LAYERS || node.head_number() > 999 || node.has_layer(&name) {
        return Err(Fail::new("no room"));
    }
    node.snapshot(name, spare);
    Ok(())
}

fn go_back(node: &mut ReplicaNode, alloc: Global, name: &[u8]) -> Result<(), Fail> {
    let (name, spare) = (LayerName::read(name)?, node.spare_head(alloc)?);
    if node.head_number() > 999 || !node.has_layer(&name) {
        return Err(Fail::new("no such layer"));
    }
    node.revert(name, spare);
    Ok(())
}

fn mark(node: &mut ReplicaNode, name: &[u8]) -> Result<(), Fail> {
    let name = LayerName::read(name)?;
    if !node.has_layer(&name) {
        return Err(Fail::new("no such layer"));
    }
    node.mark(name);
    Ok(())
}

/// Two snapshots, the second of them on the first and marked; the head is on the first again.
fn put_beside(node: &mut ReplicaNode, alloc: Global) -> Result<(), Fail> {
    keep(node, alloc, b"a")?;
    put(node, alloc, 5, 3)?;
    keep(node, alloc, b"b")?;
    go_back(node, alloc, b"a")?;
    mark(node, b"b")
}

/// Of number 4. Three layers, two of them on the first. A block of zeros is a block.
pub fn replica(alloc: Global) -> Result<ReplicaNode, Fail> {
    let mut node = ReplicaNode::blank(alloc, size()?)?;
    for (block, byte) in [(3, 1), (4, 2), (6, 0)] {
        put(&mut node, alloc, block, byte)?;
    }
    put_beside(&mut node, alloc)?;
    keep(&mut node, alloc, b"c")?;
    put(&mut node, alloc, 511, 4)?;
    Ok(node)
}

pub fn meta(alloc: Global, failed: bool) -> Result<SaveMeta, Fail> {
    let time = TimeText::read(alloc, "2026-01-02")?.ok_or("no time")?;
    let head = HeadMeta::made_at(alloc, &time)?;
    Ok(SaveMeta { time, head, failed })
}

/// Saves the replica to shelf 0.
pub fn save_on(alloc: Global, node: &ReplicaNode, shelves: &mut impl Shelves) -> Result<(), Fail> {
    Ok(save(alloc, node, &meta(alloc, false)?, 0, shelves)?)
}

/// Saves the replica to shelf 0, on which older files are.
pub fn save_over_older(
    alloc: Global,
    node: &ReplicaNode,
    shelves: &mut impl Shelves,
) -> Result<(), Fail> {
    put_older_files(shelves)?;
    save_on(alloc, node, shelves)
}
