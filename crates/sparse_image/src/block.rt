ghost use Rattle.std.specs.Prelude.{◌≡◌, length};

/// The bytes of a block, as the length of an array.
pub const BLOCK_BYTES: usize = vol_units::BLOCK_BYTES as usize;

/// The blocks of a page.
pub const PAGE_BLOCKS: u32 = (vol_units::PAGE_BYTES / vol_units::BLOCK_BYTES) as u32;

pub type Block = [u8; BLOCK_BYTES];

/// Tells a proof, which sees a box without its type, how long the block in it is.
pub(crate) fn learn_length(block: &Block)
    ensures { length block.now ≡ BLOCK_BYTES }
{}
