//! Lists that are made by a rule, for other tests.

use std::alloc::{AllocError, Global};

/// Numbers that look as if drawn, each from the one before.
pub(crate) fn drawn(before: u64) -> u64 {
    let mixed = before ^ (before >> 29);
    mixed
        .wrapping_mul(0x5851_F42D_4C95_7F2D)
        .wrapping_add(0x1405_7B7E_F767_814F)
}

/// So many bytes, of which no two neighbours are equal.
pub(crate) fn without_runs(alloc: Global, count: usize) -> Result<Vec<u8>, AllocError> {
    let mut list = Vec::new(alloc);
    for i in 0..count {
        list.push((i % 251) as u8)?;
    }
    Ok(list)
}

/// So many runs, each of up to that many bytes, as the seed draws them.
pub(crate) fn with_runs(
    alloc: Global,
    seed: u64,
    runs: u64,
    longest: u64,
) -> Result<Vec<u8>, AllocError> {
    let mut list = Vec::new(alloc);
    let mut draw = drawn(seed);
    for _ in 0..runs {
        draw = drawn(draw);
        let byte = ((draw >> 40) % 3) as u8;
        let count = 1 + (draw >> 16) % longest.max(1);
        for _ in 0..count {
            list.push(byte)?;
        }
    }
    Ok(list)
}
