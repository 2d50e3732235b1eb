ghost use Rattle.std.specs.Prelude.{◌<◌};

use crate::compare::put;
use crate::node::with_layer;
use replica_node::{BLOCK_BYTES, LayerName, ReplicaNode, take_out};
use sparse_image::Page;
use std::alloc::Global;
use std::test::Fail;
use vol_units::MOST_LAYERS;

const CALLS: u32 = 400;

/// The blocks that are written and read, on both sides of the border between two pages.
const FIRST: u32 = 508;

const END: u32 = 516;

/// Numbers one after another, by the congruence of a generated script.
#[derive(Drop)]
struct Numbers {
    state: u64,
}

impl Numbers {
    fn below(&mut self, end: u32) -> u32
        requires { 0 < end }
        ensures { result < end }
    {
        self.state = self
            .state
            .wrapping_mul(6_364_136_223_846_793_005)
            .wrapping_add(1_442_695_040_888_963_407);
        (self.state >> 33) as u32 % end
    }
}

/// Some layer of the replica.
fn layer_in(
    node: &ReplicaNode,
    alloc: Global,
    numbers: &mut Numbers,
) -> Result<Option<LayerName>, Fail> {
    let names = node.layer_names(alloc)?;
    if names.is_empty() {
        return Ok(None);
    }
    let place = numbers.below(1_024) as usize % names.len();
    Ok(Some(names[place]))
}

fn keep(node: &mut ReplicaNode, alloc: Global) -> Result<(), Fail> {
    let number = node.head_number();
    let (name, spare) = (LayerName::sys(number), node.spare_head(alloc)?);
    if node.layer_count() >= MOST_LAYERS || number > 9_999 || node.has_layer(&name) {
        return Ok(());
    }
    node.snapshot(name, spare);
    Ok(())
}

fn go_back(node: &mut ReplicaNode, alloc: Global, name: LayerName) -> Result<(), Fail> {
    let spare = node.spare_head(alloc)?;
    if node.head_number() <= 9_999 && node.has_layer(&name) {
        node.revert(name, spare);
    }
    Ok(())
}

/// Lets the layer go, if it can.
fn let_go(node: &mut ReplicaNode, name: LayerName) {
    if node.has_layer(&name) {
        node.mark(name);
    }
    if let Some(way) = node.way_of(&name) {
        take_out(node, &way);
    }
}

/// Puts one layer's page in the place of another's.
fn copy_page(
    node: &mut ReplicaNode,
    alloc: Global,
    from: &LayerName,
    to: &LayerName,
    page: u32,
) -> Result<(), Fail> {
    let mut copied = Page::unmade(alloc).lent(alloc)?;
    if page >= node.page_count() || !node.has_layer(from) || !node.has_layer(to) {
        return Ok(());
    }
    node.copy_page_out(from, page, &mut copied);
    node.copy_page_in(to, page, &mut copied);
    Ok(())
}

/// One call, drawn by the numbers.
fn call(node: &mut ReplicaNode, alloc: Global, numbers: &mut Numbers) -> Result<(), Fail> {
    let block = FIRST + numbers.below(END - FIRST);
    let kind = numbers.below(16);
    if kind < 7 {
        return put(node, alloc, block, numbers.below(256) as u8);
    }
    if kind < 11 {
        return keep(node, alloc);
    }
    let (Some(name), Some(other)) = (
        layer_in(node, alloc, numbers)?,
        layer_in(node, alloc, numbers)?,
    ) else {
        return Ok(());
    };
    match kind {
        11 => go_back(node, alloc, name),
        12 => copy_page(node, alloc, &name, &other, block / 512),
        _ => {
            let_go(node, name);
            Ok(())
        }
    }
}

/// What the search down the layers finds at the first byte of a block.
fn searched(node: &ReplicaNode, block: u32) -> u8 {
    if block >= node.block_count() {
        return 0;
    }
    if let Some(own) = node.own_block(None, block) {
        return own[0];
    }
    let parent = node.head_parent();
    match parent {
        Some(_) => node.block(&parent, block)[0],
        None => 0,
    }
}

/// What is read there.
fn read(node: &mut ReplicaNode, block: u32) -> u8 {
    let mut into = [0];
    if block < node.block_count() {
        node.read_bytes(None, block as usize * BLOCK_BYTES, &mut into);
    }
    into[0]
}

#[test]
fn each_read_is_as_the_search_finds_it(rt: HostRuntime) -> Result<(), Fail> {
    let mut node = with_layer(rt.alloc())?;
    let mut numbers = Numbers { state: 1 };
    for _call in 0..CALLS {
        call(&mut node, rt.alloc(), &mut numbers)?;
        for block in FIRST..END {
            let found = searched(&node, block);
            assert_eq!(rt;
                (read(&mut node, block), read(&mut node, block)),
                (found, found)
            );
        }
    }
    Ok(())
}
