ghost use Rattle.std.specs.Prelude.{◌≡◌, ℕ, ◌+◌, ◌<◌, ◌≤◌, [], length, map, get_or, slice_index, slice_set, vec_len, vec_capacity, IfOk, if◌then◌else◌, ◌==◌};
ghost use Rattle.location_map.specs.LocationMap.{index_without};
ghost use Rattle.layer_chain.specs.Found.{ages_from, index_of_age, KnowsNothing, ForgetsPage};

use crate::layer::Layer;
use crate::reading::is_wanted;
use location_map::LocationMap;
use sparse_image::PAGE_BLOCKS;
use std::alloc::{AllocError, Global};
use std::marker::Model;
use vol_units::{BlockRange, LayerName, MOST_LAYERS};

/// Which layers are below the head, and of some blocks which of them, or the head, has the block.
#[derive(Drop)]
pub(crate) struct ReadIndex {
    /// From the layer on which the head stands down, of each how many are older.
    ages: Vec<u8>,
    bytes: LocationMap,
    block_count: u32,
}

impl Model for ReadIndex {
    ghost use Rattle.std.specs.Prelude.{◌≡◌, ◌<◌, ◌≤◌, length, vec_len, vec_capacity};
    ghost use Rattle.layer_chain.specs.Found.{Index};

    ghost Value = { Index };

    ghost view = { λ i. record { ages = i.ages.items; bytes = i.bytes } };

    ghost invariant = { λ i. (length i.bytes ≡ i.block_count)
        × ((vec_len i.ages < 250) × (250 ≤ vec_capacity i.ages)) };
}

impl ReadIndex {
    /// No layer is below the head, and nothing is known. All memory is taken here.
    pub(crate) fn new(alloc: Global, page_count: u32) -> Result<ReadIndex, AllocError>
        ensures ages { IfOk result (λ i. i.ages ≡ []) }
        ensures none { IfOk result (λ i. KnowsNothing i.bytes) }
    {
        // Blocks have numbers of 32 bits. What lies behind them is never known, and is searched for.
        let block_count = page_count.saturating_mul(PAGE_BLOCKS);
        Ok(ReadIndex {
            ages: Vec::with_capacity(alloc, MOST_LAYERS)?,
            bytes: LocationMap::new(alloc, block_count)?,
            block_count,
        })
    }

    /// The layers below the head.
    pub(crate) fn layer_count(&self) -> usize
        ensures count { result ≡ length self.now.ages }
        ensures few { result < MOST_LAYERS }
    {
        self.ages.len()
    }

    /// How many layers are older than the one below the head that so many are above.
    pub(crate) fn age(&self, above: usize) -> usize
        requires { above < length self.now.ages }
        ensures { result ≡ get_or self.now.ages above 0 }
    {
        self.ages[above] as usize
    }

    /// The index of the layer than which so many are older, and 0 where it is not below the head.
    pub(crate) fn index_of(&self, age: usize) -> u8
        ensures { result ≡ index_of_age self.now.ages age }
    {
        index_among(&self.ages, age)
    }

    /// The index of what has the block, and 0 where that is not known.
    pub(crate) fn find(&self, block: u32) -> u8
        ensures { result ≡ slice_index self.now.bytes block }
    {
        self.bytes.find(block)
    }

    pub(crate) fn learn(&mut self, block: u32, index: u8)
        ensures { self.new ≡ record self.old { bytes = slice_set self.old.bytes block index } }
    {
        if block < self.block_count {
            self.bytes.learn(block, index);
        }
    }

    /// The head has the block.
    pub(crate) fn learn_head(&mut self, block: u32)
        ensures { self.new
            ≡ record self.old { bytes = slice_set self.old.bytes block (length self.old.ages + 1) } }
    {
        let index = self.ages.len() as u8 + 1;
        self.learn(block, index);
    }

    pub(crate) fn forget_page(&mut self, page: u32)
        ensures page { ForgetsPage self.old.bytes self.new.bytes page }
        ensures ages { self.new.ages ≡ self.old.ages }
    {
        let first = page.saturating_mul(PAGE_BLOCKS);
        self.bytes.forget(BlockRange {
            first,
            end: first.saturating_add(PAGE_BLOCKS),
        });
    }

    pub(crate) fn forget_all(&mut self)
        ensures none { KnowsNothing self.new.bytes }
        ensures ages { self.new.ages ≡ self.old.ages }
    {
        self.bytes.forget(BlockRange {
            first: 0,
            end: self.block_count,
        });
    }

    /// The layer of that index has gone from below the head. 0 is none.
    pub(crate) fn renumber(&mut self, gone: u8)
        ensures bytes { self.new.bytes
            ≡ (if gone == 0 then self.old.bytes else map (index_without gone) self.old.bytes) }
        ensures ages { self.new.ages ≡ self.old.ages }
    {
        if gone != 0 {
            self.bytes.renumber(gone);
        }
    }

    /// The head stands on that one of the layers, or on none.
    pub(crate) fn stand_on(&mut self, layers: &[Layer], on: &Option<LayerName>)
        requires { length layers.now < MOST_LAYERS }
        ensures { self.new ≡ record self.old { ages = ages_from layers.now on.now } }
    {
        self.ages.clear();
        list_ages(&mut self.ages, layers, on);
    }
}

/// Lists how many layers are older than the named one, than its parent, and so on down.
fn list_ages(into: &mut Vec<u8>, layers: &[Layer], name: &Option<LayerName>)
    requires empty { into.old.items ≡ [] }
    requires few { length layers.now < MOST_LAYERS }
    requires room { MOST_LAYERS ≤ vec_capacity into.old }
    ensures ages { into.new.items ≡ ages_from layers.now name.now }
    ensures few { vec_len into.new < MOST_LAYERS }
    ensures room { vec_capacity into.old ≤ vec_capacity into.new }
{
    let mut wanted = *name;
    for place in 0..layers.len() {
        let layer = &layers[place];
        if is_wanted(&wanted, &layer.meta.name) {
            into.push((layers.len() - 1 - place) as u8).unwrap();
            wanted = layer.meta.parent;
        }
    }
}

fn index_among(ages: &[u8], age: usize) -> u8
    requires { length ages.now < MOST_LAYERS }
    ensures { result ≡ index_of_age ages.now age }
{
    for above in 0..ages.len() {
        if ages[above] as usize == age {
            return (ages.len() - above) as u8;
        }
    }
    0
}
