use crate::compare::put;
use layer_pages::{is_over, pages_above};
use replica_node::{LayerName, ReplicaNode, VolumeSize};
use std::alloc::Global;
use std::test::Fail;
use vol_units::MOST_LAYERS;

/// Lays the head down as the layer of a number, with a block of its own.
fn snap(node: &mut ReplicaNode, alloc: Global, number: u64, block: u32) -> Result<(), Fail> {
    put(node, alloc, block, 1)?;
    let (name, spare) = (LayerName::sys(number), node.spare_head(alloc)?);
    if node.layer_count() >= MOST_LAYERS || node.head_number() > 9 || node.has_layer(&name) {
        return Err(Fail::new("no room"));
    }
    node.snapshot(name, spare);
    Ok(())
}

/// Goes back to the layer of a number.
fn back_to(node: &mut ReplicaNode, alloc: Global, number: u64) -> Result<(), Fail> {
    let (name, spare) = (LayerName::sys(number), node.spare_head(alloc)?);
    if node.head_number() > 9 || !node.has_layer(&name) {
        return Err(Fail::new("no layer"));
    }
    node.revert(name, spare);
    Ok(())
}

/// Four pages. Layer 0 has a block of the first, 1 stands on it and has the last block, 2 stands on 1 and has a block of
/// the second page; and 3, beside 1, has a block of the third.
fn with_branch(alloc: Global) -> Result<ReplicaNode, Fail> {
    let mut node = ReplicaNode::blank(alloc, VolumeSize::new(8_388_608)?)?;
    snap(&mut node, alloc, 0, 0)?;
    snap(&mut node, alloc, 1, 2047)?;
    snap(&mut node, alloc, 2, 512)?;
    back_to(&mut node, alloc, 0)?;
    snap(&mut node, alloc, 3, 1024)?;
    Ok(node)
}

/// The pages of the layer of a number above a base.
fn pages_of(
    node: &ReplicaNode,
    alloc: Global,
    number: u64,
    base: Option<u64>,
) -> Result<Vec<u32>, Fail> {
    let name = LayerName::sys(number);
    if !node.has_layer(&name) {
        return Err(Fail::new("no layer"));
    }
    let Some(base) = base else {
        return Ok(pages_above(node, alloc, &name, &None)?);
    };
    let base = LayerName::sys(base);
    if !is_over(node, &name, &base) {
        return Err(Fail::new("no base"));
    }
    Ok(pages_above(node, alloc, &name, &Some(base))?)
}

#[test]
fn without_a_base_the_whole_chain_tells(rt: HostRuntime) -> Result<(), Fail> {
    let node = with_branch(rt.alloc())?;
    let (chain, branch) = (
        pages_of(&node, rt.alloc(), 2, None)?,
        pages_of(&node, rt.alloc(), 3, None)?,
    );
    assert_eq!(rt; chain.as_slice(), [0, 1, 3].as_slice());
    assert_eq!(rt; branch.as_slice(), [0, 2].as_slice());
    Ok(())
}

#[test]
fn the_base_and_what_is_below_it_are_left_out(rt: HostRuntime) -> Result<(), Fail> {
    let node = with_branch(rt.alloc())?;
    let (two, one, branch) = (
        pages_of(&node, rt.alloc(), 2, Some(0))?,
        pages_of(&node, rt.alloc(), 2, Some(1))?,
        pages_of(&node, rt.alloc(), 3, Some(0))?,
    );
    assert_eq!(rt; two.as_slice(), [1, 3].as_slice());
    assert_eq!(rt; one.as_slice(), [1].as_slice());
    assert_eq!(rt; branch.as_slice(), [2].as_slice());
    Ok(())
}

#[test]
fn a_layer_has_no_page_above_itself(rt: HostRuntime) -> Result<(), Fail> {
    let node = with_branch(rt.alloc())?;
    let pages = pages_of(&node, rt.alloc(), 1, Some(1))?;
    assert_eq!(rt; pages.len(), 0);
    Ok(())
}

#[test]
fn a_layer_is_over_what_it_stands_on(rt: HostRuntime) -> Result<(), Fail> {
    let node = with_branch(rt.alloc())?;
    for (name, base, over) in [(2, 0, true), (2, 2, true), (3, 1, false), (0, 2, false)] {
        assert_eq!(rt;
            is_over(&node, &LayerName::sys(name), &LayerName::sys(base)),
            over
        );
    }
    Ok(())
}
