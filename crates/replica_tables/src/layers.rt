use layer_chain::LayerTree;
use sparse_image::Image;
use std::alloc::Global;
use std::test::Fail;
use vol_units::{LayerName, MOST_LAYERS};

/// Lays the head down as the layer of this number.
fn snap(tree: &mut LayerTree, alloc: Global, number: u64) -> Result<(), Fail> {
    let (name, spare) = (LayerName::sys(number), Image::with_pages(alloc, 1)?);
    if tree.count() >= MOST_LAYERS || tree.head_number() > 9 || tree.index_of(&name).is_some() {
        return Err(Fail::new("no room"));
    }
    tree.snap_head(name, true, spare);
    Ok(())
}

#[test]
fn what_stands_on_a_layer_is_listed(rt: HostRuntime) -> Result<(), Fail> {
    let mut tree = LayerTree::new(rt.alloc(), 1)?;
    for number in 0..2 {
        snap(&mut tree, rt.alloc(), number)?;
    }
    let above = tree.children(rt.alloc(), &LayerName::sys(0))?;
    assert_eq!(rt; above.as_slice(), [LayerName::sys(1)].as_slice());
    Ok(())
}
