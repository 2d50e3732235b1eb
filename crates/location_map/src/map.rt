ghost use Rattle.std.specs.Prelude.{◌≡◌, ◌<◌, length, map, replicate, slice_index, slice_set, IfOk};
ghost use Rattle.location_map.specs.LocationMap.{index_without, Forgets};

use std::alloc::{AllocError, Global};
use std::marker::Model;
use vol_units::BlockRange;

/// For each block of a volume the index of the layer that has it, in the chain of the head, whose lowest layer is 1. It
/// is 0 where that is not known. A contract sees the list of these bytes.
#[derive(Drop)]
pub struct LocationMap {
    /// The bytes of the blocks up to the last that was ever learned. Behind them each is 0, and no memory was touched.
    learned: Vec<u8>,
    block_count: u32,
}

impl Model for LocationMap {
    ghost use Rattle.std.specs.Prelude.{ℕ, ◌-◌, ◌≤◌, List, ◌++◌, replicate, vec_len, vec_capacity};

    ghost Value = { List ℕ };

    ghost view = { λ m. m.learned.items ++ replicate (m.block_count - vec_len m.learned) 0 };

    ghost invariant = { λ m. (vec_len m.learned ≤ m.block_count) × (m.block_count ≤ vec_capacity m.learned) };
}

impl LocationMap {
    /// Of no block it is known which layer has it. All memory is taken here, and no other call takes any.
    pub fn new(alloc: Global, block_count: u32) -> Result<LocationMap, AllocError>
        ensures { IfOk result (λ map. map ≡ replicate block_count 0) }
    {
        Ok(LocationMap {
            learned: Vec::with_capacity(alloc, block_count as usize)?,
            block_count,
        })
    }

    /// The index of the layer that has the block, and 0 where it is not known. There is none past the last block.
    pub fn find(&self, block: u32) -> u8
        ensures { result ≡ slice_index self.now block }
    {
        match self.learned.get(block as usize) {
            Some(index) => *index,
            None => 0,
        }
    }

    pub fn learn(&mut self, block: u32, index: u8)
        requires { block < length self.old }
        ensures { self.new ≡ slice_set self.old block index }
    {
        let place = block as usize;
        if place >= self.learned.len() {
            self.learned.resize(place + 1, 0).unwrap();
        }
        self.learned[place] = index;
    }

    /// The layers of the range's blocks are not known after it.
    pub fn forget(&mut self, range: BlockRange)
        ensures { Forgets self.old self.new range }
    {
        let first = range.first as usize;
        let end = range.end as usize;
        if end >= self.learned.len() {
            // So all blocks are forgotten at once, however many there are.
            self.learned.truncate(first);
        } else if first < end {
            self.learned[first..end].fill(0);
        }
    }

    /// The layer of that index has gone from the chain.
    pub fn renumber(&mut self, gone: u8)
        ensures { self.new ≡ map (index_without gone) self.old }
    {
        renumber_all(&mut self.learned, gone);
    }
}

fn renumber_all(indices: &mut [u8], gone: u8)
    ensures { indices.new ≡ map (index_without gone) indices.old }
{
    for index in indices.iter_mut() {
        *index = renumbered(*index, gone);
    }
}

fn renumbered(index: u8, gone: u8) -> u8
    ensures { result ≡ index_without gone index }
{
    if index == gone {
        0
    } else if index > gone {
        index - 1
    } else {
        index
    }
}
