ghost use Rattle.std.specs.Prelude.{◌≡◌, ℕ, ◌*◌, ◌^◌, ◌<◌, length, is_some, true, false};
ghost use Rattle.sparse_image.specs.Image.{block_at};
ghost use Rattle.replica_node.specs.Fold.{HasBlockIn, HasNoBlockIn};
ghost use Rattle.replica_node.specs.Node.{IsInPages};

use sparse_image::{Image, PAGE_BLOCKS};

/// Whether an image has a block of the page. Where the page is not made it looks at none.
pub(crate) fn has_block_of(image: &Image, page: u32) -> bool
    requires made { IsInPages image.now }
    requires few { length image.now * PAGE_BLOCKS < 2 ^ 32 }
    ensures some { result ≡ true → HasBlockIn image.now page }
    ensures none { result ≡ false → HasNoBlockIn image.now page }
{
    if !image.has_page(page) {
        return false;
    }
    let first = page * PAGE_BLOCKS;
    for block in first..first + PAGE_BLOCKS {
        if image.present(block) {
            return true;
        }
    }
    false
}

/// Whether an image has a block at all.
pub(crate) fn has_block(image: &Image) -> bool
    requires made { IsInPages image.now }
    requires few { length image.now * PAGE_BLOCKS < 2 ^ 32 }
    ensures some { result ≡ true → (page : ℕ) × HasBlockIn image.now page }
    ensures none { result ≡ false → (block : ℕ) → is_some (block_at image.now block) ≡ false }
{
    for page in 0..image.page_count() {
        if has_block_of(image, page) {
            return true;
        }
    }
    false
}
