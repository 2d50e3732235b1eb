ghost use Rattle.std.specs.Prelude.{◌≡◌, ◌↔◌, ◌*◌, ◌∷◌, ◌++◌, [], length, Some, IsTrue, IfOk, OnOk, OnErr, All, is_some, true};
ghost use Rattle.sparse_image.specs.Listed.{blocks_of, bytes_in};

use crate::block::{BLOCK_BYTES, Block};
use crate::place::Place;
use std::alloc::{AllocError, Global};
use std::marker::Model;

/// The blocks of a range in their order, each in a box that is lent. A write swaps them with those
/// that it replaces. A contract sees their bytes.
#[derive(Drop)]
pub struct Blocks {
    /// A place for each, of which a write takes what is there, and leaves what it replaced.
    pub slots: Vec<Place>,
}

impl Model for Blocks {
    ghost use Rattle.std.specs.Prelude.{List, ℕ, Option};

    ghost Value = { List (Option (List ℕ)) };

    ghost view = { λ b. b.slots.items };
}

impl Blocks {
    pub fn new(alloc: Global) -> Blocks
        ensures { result ≡ [] }
    {
        Blocks {
            slots: Vec::new(alloc),
        }
    }

    /// So many boxes of zeros, to be filled.
    pub fn with_count(alloc: Global, count: usize) -> Result<Blocks, AllocError>
        ensures count { IfOk result (λ blocks. length blocks ≡ count) }
        ensures full { IfOk result (All (λ b. is_some b ≡ true)) }
    {
        let mut blocks = Blocks::new(alloc);
        blocks.make_full(alloc, count)?;
        Ok(blocks)
    }

    /// Makes them so many boxes, to be filled. Those that are there serve: a write over blocks that the head had brings
    /// boxes back.
    pub fn make_full(&mut self, alloc: Global, count: usize) -> Result<(), AllocError>
        ensures count { OnOk result (length self.new ≡ count) }
        ensures full { OnOk result (All (λ b. is_some b ≡ true) self.new) }
    {
        self.slots.truncate(count);
        make_all(alloc, &mut self.slots)?;
        for _i in self.slots.len()..count {
            self.push(Box::new(alloc, [0; BLOCK_BYTES])?)?;
        }
        Ok(())
    }

    pub fn push(&mut self, block: Box<Block>) -> Result<(), AllocError>
        ensures ok { OnOk result (self.new ≡ self.old ++ Some block.value ∷ []) }
        ensures err { OnErr result (self.new ≡ self.old) }
    {
        self.slots.push(Place { block: Some(block) })?;
        Ok(())
    }

    pub fn len(&self) -> usize
        ensures { result ≡ length self.now }
    {
        self.slots.len()
    }

    /// Whether each box is there: a write brings none back for a block that the head had not.
    pub fn is_full(&self) -> bool
        ensures { IsTrue result ↔ All (λ b. is_some b ≡ true) self.now }
    {
        self.slots.iter().all(|slot| slot.is_there())
    }

    /// Writes over the blocks with these bytes, one after another. It takes no memory.
    pub fn fill(&mut self, bytes: &[u8])
        requires full { All (λ b. is_some b ≡ true) self.old }
        requires whole { length bytes.now ≡ length self.old * BLOCK_BYTES }
        ensures blocks { self.new ≡ blocks_of bytes.now (length self.old) }
        ensures bytes { bytes_in self.new ≡ bytes.now }
        ensures full { All (λ b. is_some b ≡ true) self.new }
        ensures count { length self.new ≡ length self.old }
    {
        fill_all(&mut self.slots, bytes);
    }
}

/// Makes a box for each slot that has none.
fn make_all(alloc: Global, slots: &mut [Place]) -> Result<(), AllocError>
    ensures count { length slots.new ≡ length slots.old }
    ensures full { OnOk result (All (λ b. is_some b ≡ true) slots.new) }
{
    for i in 0..slots.len() {
        make_one(alloc, &mut slots[i])?;
    }
    Ok(())
}

fn make_one(alloc: Global, slot: &mut Place) -> Result<(), AllocError>
    ensures { OnOk result (is_some slot.new ≡ true) }
{
    if !slot.is_there() {
        slot.block = Some(Box::new(alloc, [0; BLOCK_BYTES])?);
    }
    Ok(())
}

/// Writes over the blocks in the slots with these bytes.
fn fill_all(slots: &mut [Place], bytes: &[u8])
    requires full { All (λ b. is_some b ≡ true) slots.old }
    requires whole { length bytes.now ≡ length slots.old * BLOCK_BYTES }
    ensures blocks { slots.new ≡ blocks_of bytes.now (length slots.old) }
    ensures bytes { bytes_in slots.new ≡ bytes.now }
    ensures full { All (λ b. is_some b ≡ true) slots.new }
{
    for i in 0..slots.len() {
        let start = i * BLOCK_BYTES;
        fill_slot(&mut slots[i], &bytes[start..start + BLOCK_BYTES]);
    }
}

/// Writes over the block in a slot.
fn fill_slot(slot: &mut Place, bytes: &[u8])
    requires full { is_some slot.old ≡ true }
    requires whole { length bytes.now ≡ BLOCK_BYTES }
    ensures { slot.new ≡ Some bytes.now }
{
    if let Some(block) = &mut slot.block {
        block.copy_from_slice(bytes);
    }
}
