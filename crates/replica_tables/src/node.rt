use replica_node::{BlockRange, Blocks, LayerName, ReplicaNode, VolumeSize};
use std::alloc::Global;
use std::test::Fail;
use vol_units::MOST_LAYERS;

/// A replica of two pages with one layer.
pub(crate) fn with_layer(alloc: Global) -> Result<ReplicaNode, Fail> {
    let mut node = ReplicaNode::blank(alloc, VolumeSize::new(4_194_304)?)?;
    let (name, spare) = (LayerName::sys(0), node.spare_head(alloc)?);
    if node.layer_count() >= MOST_LAYERS || node.head_number() > 9 || node.has_layer(&name) {
        return Err(Fail::new("no room"));
    }
    node.snapshot(name, spare);
    Ok(node)
}

#[test]
fn a_replica_and_one_like_it_are_made(rt: HostRuntime) -> Result<(), Fail> {
    let node = with_layer(rt.alloc())?;
    let like = node.blank_like(rt.alloc())?;
    assert_eq!(rt; (like.layer_count(), like.head_number()), (2, 1));
    Ok(())
}

#[test]
fn layers_are_told(rt: HostRuntime) -> Result<(), Fail> {
    let node = with_layer(rt.alloc())?;
    let (names, chain) = (node.layer_names(rt.alloc())?, node.chain(rt.alloc())?);
    assert_eq!(rt; (names.len(), chain.len()), (1, 1));
    Ok(())
}

/// Makes room in a head for its last block.
fn make_room(node: &mut ReplicaNode, alloc: Global) -> Result<(), Fail> {
    let end = node.block_count();
    if end == 0 {
        return Err(Fail::new("no block"));
    }
    node.make_room(
        alloc,
        BlockRange {
            first: end - 1,
            end,
        },
    )?;
    Ok(())
}

#[test]
fn room_and_boxes_are_made(rt: HostRuntime) -> Result<(), Fail> {
    make_room(&mut with_layer(rt.alloc())?, rt.alloc())?;
    let boxes = Blocks::with_count(rt.alloc(), 3)?;
    assert!(rt; boxes.is_full());
    Ok(())
}
