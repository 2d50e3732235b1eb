ghost use Rattle.std.specs.Prelude.{◌≡◌, ◌==◌, ◌+◌, ◌<◌, ◌≤◌, [], length, replicate, None, Some, true, false, IfOk, IfSome, is_some, slice_set};
ghost use Rattle.std.specs.Option.{option_map, option_copied};
ghost use Rattle.vol_units.specs.Bytes.{with_bytes_at};
ghost use Rattle.sparse_image.specs.Image.{place_at, page_over, HasBlock, HasNoBlock, IsLent};
ghost use Rattle.sparse_image.specs.Whole.{IsTable};

use crate::block::{BLOCK_BYTES, Block, PAGE_BLOCKS};
use crate::place::Place;
use std::alloc::{AllocError, Global};
use std::marker::Model;
use std::mem;

/// The blocks of a page: a place for each, or no places at all where the page is not made. One that is lent has a box
/// at each place, so that blocks can be copied there without taking memory.
#[derive(Drop)]
pub struct Page {
    places: Vec<Place>,
}

impl Model for Page {
    ghost use Rattle.sparse_image.specs.Image.{Table};
    ghost use Rattle.sparse_image.specs.Whole.{IsTable};

    ghost Value = { Table };

    ghost view = { λ p. p.places.items };

    ghost invariant = { λ p. IsTable p.places.items };
}

impl Page {
    pub fn unmade(alloc: Global) -> Page
        ensures { result ≡ [] }
    {
        Page {
            places: Vec::new(alloc),
        }
    }

    pub(crate) fn made(alloc: Global) -> Result<Page, AllocError>
        ensures { IfOk result (λ p. p ≡ replicate PAGE_BLOCKS None) }
    {
        let mut places = Vec::with_capacity(alloc, PAGE_BLOCKS as usize)?;
        for _place in 0..PAGE_BLOCKS {
            places.push(Place::empty())?;
        }
        Ok(Page { places })
    }

    /// The page with a box at each place. Those that it has are kept, and what they hold is of no use any more.
    pub fn lent(self, alloc: Global) -> Result<Page, AllocError>
        ensures { IfOk result IsLent }
    {
        if self.is_made() {
            return self.with_boxes(alloc);
        }
        Page::made(alloc)?.with_boxes(alloc)
    }

    /// The same of a page that is made.
    fn with_boxes(mut self, alloc: Global) -> Result<Page, AllocError>
        requires { length self ≡ PAGE_BLOCKS }
        ensures { IfOk result IsLent }
    {
        for place in 0..PAGE_BLOCKS as usize {
            if self.get(place).is_none() {
                self.put(place, Box::new(alloc, [0; BLOCK_BYTES])?);
            }
        }
        Ok(self)
    }

    pub fn is_made(&self) -> bool
        ensures made { result ≡ (length self.now == PAGE_BLOCKS) }
        ensures unmade { result ≡ false → self.now ≡ [] }
        ensures table { IsTable self.now }
    {
        !self.places.is_empty()
    }

    pub fn has_block(&self) -> bool
        ensures some { result ≡ true → HasBlock self.now }
        ensures none { result ≡ false → HasNoBlock self.now }
        ensures made { result ≡ true → length self.now ≡ PAGE_BLOCKS }
    {
        for place in 0..self.places.len() {
            if self.places[place].is_there() {
                return true;
            }
        }
        false
    }

    /// The block at a place of the page.
    pub fn get(&self, place: usize) -> Option<&Block>
        ensures { option_copied result ≡ place_at self.now place }
    {
        match self.places.get(place) {
            Some(found) => found.get(),
            None => None,
        }
    }

    pub(crate) fn put(&mut self, place: usize, block: Box<Block>) -> Option<Box<Block>>
        requires { place < length self.old }
        ensures new { self.new ≡ slice_set self.old place (Some block.value) }
        ensures old { option_map (λ b. b.value) result ≡ place_at self.old place }
        ensures whole { length block.value ≡ BLOCK_BYTES }
        ensures table { IsTable self.new }
    {
        self.places[place].put(block)
    }

    /// Writes over part of the block at a place, and is false where there is none.
    pub(crate) fn overwrite(&mut self, place: usize, start: usize, bytes: &[u8]) -> bool
        requires { start + length bytes.now ≤ BLOCK_BYTES }
        ensures there { result ≡ is_some (place_at self.old place) }
        ensures absent { result ≡ false → self.new ≡ self.old }
        ensures new { self.new ≡ slice_set self.old place
            (option_map (λ b. with_bytes_at b start bytes.now) (place_at self.old place)) }
        ensures table { IsTable self.new }
    {
        if place >= self.places.len() {
            return false;
        }
        self.places[place].overwrite(start, bytes)
    }

    /// Copies the blocks of another page into the boxes that are here. Where that page has none the box goes. But where
    /// it has none at all, all boxes stay, and it is false.
    pub(crate) fn copy_of(&mut self, other: &Page) -> bool
        requires { IsLent self.old }
        ensures some { result ≡ true → HasBlock other.now }
        ensures none { result ≡ false → HasNoBlock other.now }
        ensures copied { result ≡ true → self.new ≡ other.now }
        ensures same { result ≡ false → self.new ≡ self.old }
    {
        if !other.has_block() {
            return false;
        }
        self.copy_all(other);
        true
    }

    /// The same of a page that is made.
    fn copy_all(&mut self, other: &Page)
        requires lent { IsLent self.old }
        requires made { length other.now ≡ PAGE_BLOCKS }
        ensures { self.new ≡ other.now }
    {
        for place in 0..PAGE_BLOCKS as usize {
            self.places[place].copy_of(&other.places[place]);
        }
    }

    /// Moves the page's blocks over those of a page below, and is not made after.
    pub(crate) fn move_onto(&mut self, below: &mut Page)
        ensures own { self.new ≡ [] }
        ensures under { below.new ≡ page_over self.old below.old }
    {
        if !self.is_made() {
            return;
        }
        if !below.is_made() {
            mem::swap(self, below);
            return;
        }
        self.lay_over(below);
    }

    /// The same where both are made.
    fn lay_over(&mut self, below: &mut Page)
        requires own { length self.old ≡ PAGE_BLOCKS }
        requires under { length below.old ≡ PAGE_BLOCKS }
        ensures own { self.new ≡ [] }
        ensures under { below.new ≡ page_over self.old below.old }
    {
        for i in 0..self.places.len() {
            self.places[i].move_onto(&mut below.places[i]);
        }
        self.places.clear();
    }
}
