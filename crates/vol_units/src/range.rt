ghost use Rattle.std.specs.Prelude.{◌≡◌, ◌+◌, ◌*◌, ◌≤◌, ◌↔◌, IsTrue, IfSome, is_some};
ghost use Rattle.vol_units.specs.Range.{is_good, place_of, blocks_around, Covers, EachBlockHasByte, HaveCommonBlock};

use crate::place::place_within;
use crate::size::{BLOCK_BYTES, LARGEST_SIZE, VolumeSize};

/// The blocks from `first` up to `end`, which is not one of them; none where `end` is not above `first`.
#[derive(Clone, Copy, Debug, PartialEq, Eq)]
pub struct BlockRange {
    pub first: u32,
    pub end: u32,
}

impl BlockRange {
    /// The bytes from the offset on, rounded outward to blocks.
    pub fn around(size: VolumeSize, offset: i64, length: u32) -> Option<BlockRange>
        ensures good { is_some result ≡ is_good size offset length }
        ensures covers { IfSome result (λ r. Covers r offset length) }
        ensures least { IfSome result (λ r. EachBlockHasByte r offset length) }
        ensures exact { IfSome result (λ r. r ≡ blocks_around (place_of offset) length) }
        ensures inside { IfSome result (λ r. r.end * BLOCK_BYTES ≤ size) }
    {
        let length = length as usize;
        let at = place_within(offset, length, size.bytes() as usize)?;
        Some(BlockRange::touched(at, length))
    }

    /// The blocks in which so many bytes from a place on lie.
    pub fn touched(at: usize, length: usize) -> BlockRange
        requires { at + length ≤ LARGEST_SIZE }
        ensures { result ≡ blocks_around at length }
    {
        let end = (at + length) as u64;
        let first = (at as u64 / BLOCK_BYTES) as u32;
        if length == 0 {
            return BlockRange { first, end: first };
        }
        BlockRange {
            first,
            end: ((end - 1) / BLOCK_BYTES + 1) as u32,
        }
    }

    pub fn overlaps(self, other: BlockRange) -> bool
        ensures { IsTrue result ↔ HaveCommonBlock self other }
    {
        self.first.max(other.first) < self.end.min(other.end)
    }
}
