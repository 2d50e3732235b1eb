use page_text::append_text;
use sparse_image::{BLOCK_BYTES, PAGE_BLOCKS, Page};
use std::test::Fail;
use vol_units::LayerName;

#[test]
fn a_full_page_has_its_text(rt: HostRuntime) -> Result<(), Fail> {
    let page = Page::unmade(rt.alloc()).lent(rt.alloc())?;
    let mut text = Vec::new(rt.alloc());
    append_text(&mut text, &LayerName::read(b"low")?, &page)?;
    assert_eq!(rt; text.len(), 4 + 64 + PAGE_BLOCKS as usize * BLOCK_BYTES);
    assert!(rt; text.starts_with(b"\x03low\xff"));
    assert!(rt; text[66..70] == [0xff, 0xff, 0, 0]);
    Ok(())
}
