ghost use Rattle.std.specs.Prelude.{◌≡◌, ◌+◌, ◌≤◌, length, None, Some, true, false, is_some};
ghost use Rattle.std.specs.Option.{option_map, option_copied, option_or};
ghost use Rattle.vol_units.specs.Bytes.{with_bytes_at};

use crate::block::{BLOCK_BYTES, Block, learn_length};
use std::marker::Model;

/// A block in its box, or none. A contract sees its bytes.
#[derive(Drop)]
pub struct Place {
    pub block: Option<Box<Block>>,
}

impl Model for Place {
    ghost use Rattle.std.specs.Prelude.{List, ℕ, Option};
    ghost use Rattle.std.specs.Option.{option_map};

    ghost Value = { Option (List ℕ) };

    ghost view = { λ p. option_map (λ b. b.value) p.block };
}

impl Place {
    pub fn empty() -> Place
        ensures { result ≡ None }
    {
        Place { block: None }
    }

    pub fn is_there(&self) -> bool
        ensures { result ≡ is_some self.now }
    {
        self.block.is_some()
    }

    pub fn get(&self) -> Option<&Block>
        ensures { option_copied result ≡ self.now }
    {
        match &self.block {
            Some(block) => Some(block),
            None => None,
        }
    }

    pub fn put(&mut self, block: Box<Block>) -> Option<Box<Block>>
        ensures new { self.new ≡ Some block.value }
        ensures old { option_map (λ b. b.value) result ≡ self.old }
        ensures whole { length block.value ≡ BLOCK_BYTES }
    {
        learn_length(&block);
        self.block.replace(block)
    }

    /// Moves the block that is there onto a place below, and leaves none.
    pub fn move_onto(&mut self, below: &mut Place)
        ensures own { self.new ≡ None }
        ensures under { below.new ≡ option_or self.old below.old }
    {
        if let Some(block) = self.block.take() {
            below.block = Some(block);
        }
    }

    /// Copies the block of another place into the box that is here. Where that has none, the box goes.
    pub fn copy_of(&mut self, other: &Place)
        requires { is_some self.old ≡ true }
        ensures { self.new ≡ other.now }
    {
        match &other.block {
            Some(from) => {
                if let Some(into) = &mut self.block {
                    into.copy_from_slice(&from[..]);
                }
            }
            None => self.block = None,
        }
    }

    /// Writes over part of the block that is there, and is false where there is none.
    pub fn overwrite(&mut self, start: usize, bytes: &[u8]) -> bool
        requires { start + length bytes.now ≤ BLOCK_BYTES }
        ensures there { result ≡ is_some self.old }
        ensures absent { result ≡ false → self.new ≡ self.old }
        ensures new { self.new ≡ option_map (λ b. with_bytes_at b start bytes.now) self.old }
    {
        match &mut self.block {
            Some(block) => {
                block[start..start + bytes.len()].copy_from_slice(bytes);
                true
            }
            None => false,
        }
    }
}
