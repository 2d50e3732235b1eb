use crate::node::with_layer;
use replica_compare::{Difference, compare};
use replica_node::{BlockRange, Blocks, LayerName, ReplicaNode};
use sparse_image::BLOCK_BYTES;
use std::alloc::Global;
use std::test::Fail;
use vol_units::MOST_LAYERS;

/// Puts a block of one byte over and over into a head.
pub(crate) fn put(node: &mut ReplicaNode, alloc: Global, block: u32, byte: u8) -> Result<(), Fail> {
    let mut blocks = Blocks::new(alloc);
    blocks.push(Box::new(alloc, [byte; BLOCK_BYTES])?)?;
    if block >= node.block_count() || blocks.len() != 1 || !blocks.is_full() {
        return Err(Fail::new("no block"));
    }
    let range = BlockRange {
        first: block,
        end: block + 1,
    };
    node.make_room(alloc, range)?;
    node.write_blocks(range, &mut blocks);
    Ok(())
}

#[test]
fn a_block_of_the_head_differs(rt: HostRuntime) -> Result<(), Fail> {
    let (one, mut other) = (with_layer(rt.alloc())?, with_layer(rt.alloc())?);
    assert_eq!(rt; compare(&one, &other), None);
    put(&mut other, rt.alloc(), 3, 1)?;
    assert_eq!(rt; compare(&one, &other), Some(Difference::Reads(None, 3)));
    Ok(())
}

#[test]
fn a_layer_is_in_one_alone(rt: HostRuntime) -> Result<(), Fail> {
    let (one, mut other) = (with_layer(rt.alloc())?, with_layer(rt.alloc())?);
    let (name, spare) = (LayerName::read(b"a")?, other.spare_head(rt.alloc())?);
    if other.layer_count() >= MOST_LAYERS || other.head_number() > 9 || other.has_layer(&name) {
        return Err(Fail::new("no room"));
    }
    other.snapshot(name, spare);
    assert_eq!(rt; compare(&one, &other), Some(Difference::Shape(Some(name))));
    Ok(())
}
