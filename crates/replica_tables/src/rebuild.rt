use crate::node::with_layer;
use open_rebuild::Rebuilding;
use std::test::Fail;

#[test]
fn a_rebuild_has_a_bit_for_each_page(rt: HostRuntime) -> Result<(), Fail> {
    let begun = Rebuilding::begin(rt.alloc(), 1, 0, &with_layer(rt.alloc())?)?;
    assert_eq!(rt; (begun.frozen.count(), begun.listed.count()), (2, 4));
    Ok(())
}
