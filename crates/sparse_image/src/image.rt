ghost use Rattle.std.specs.Prelude.{◌≡◌, ◌==◌, ◌&&◌, nat_le, nat_lt, ◌+◌, ◌*◌, ◌/◌, ◌<◌, ◌≤◌, length, Some, IfOk, IfSome, OnOk, OnErr, IsTrue, true, false, is_some, slice_range};
ghost use Rattle.std.specs.Option.{option_map, option_copied};
ghost use Rattle.vol_units.specs.Bytes.{with_bytes_at, zeros};
ghost use Rattle.sparse_image.specs.Disk.{bytes_of, disk_of};
ghost use Rattle.sparse_image.specs.Image.{block_at, has_page, IsEmpty, MakesPages, is_page_of, ChangesBlock, EmptiesPage, LaysPageOver, table_at, HasBlock, HasNoBlock, IsLent, PutsTable};
ghost use Rattle.sparse_image.specs.Whole.{IsImage, IsTable};

use crate::block::{BLOCK_BYTES, Block, PAGE_BLOCKS};
use crate::page::Page;
use std::alloc::{AllocError, Global};
use std::marker::Model;
use std::mem;
use vol_units::BlockRange;

/// The blocks of one layer.
#[derive(Drop)]
pub struct Image {
    pages: Vec<Page>,
}

impl Model for Image {
    ghost use Rattle.sparse_image.specs.Image.{Tables};
    ghost use Rattle.sparse_image.specs.Whole.{IsImage};

    ghost Value = { Tables };

    ghost view = { λ i. i.pages.items };

    ghost invariant = { λ i. IsImage i.pages.items };
}

impl Image {
    pub fn with_pages(alloc: Global, page_count: u32) -> Result<Image, AllocError>
        ensures empty { IfOk result (λ i. IsEmpty i page_count) }
        ensures disk { IfOk result
            (λ i. disk_of i ≡ zeros (page_count * PAGE_BLOCKS * BLOCK_BYTES)) }
    {
        let mut pages = Vec::with_capacity(alloc, page_count as usize)?;
        for _page in 0..page_count {
            pages.push(Page::unmade(alloc))?;
        }
        Ok(Image { pages })
    }

    pub fn page_count(&self) -> u32
        ensures count { result ≡ length self.now }
        ensures disk { length (disk_of self.now) ≡ result * PAGE_BLOCKS * BLOCK_BYTES }
        ensures whole { IsImage self.now }
    {
        self.pages.len() as u32
    }

    #[tactic(auto, unfolding(crate::specs::Image::has_page))]
    pub fn has_page(&self, page: u32) -> bool
        ensures { result ≡ has_page self.now page }
    {
        match self.pages.get(page as usize) {
            Some(page) => page.is_made(),
            None => false,
        }
    }

    /// Makes the table of a page, if it is not there. No block changes.
    pub fn ensure_page(&mut self, alloc: Global, page: u32) -> Result<(), AllocError>
        requires { page < length self.old }
        ensures ok { OnOk result (MakesPages self.old self.new (λ p. p == page)) }
        ensures err { OnErr result (self.new ≡ self.old) }
        ensures disk { disk_of self.new ≡ disk_of self.old }
    {
        if !self.pages[page as usize].is_made() {
            self.pages[page as usize] = Page::made(alloc)?;
        }
        Ok(())
    }

    /// Makes the tables of the pages of a range, wherever one is not there. No block changes.
    pub fn make_room(&mut self, alloc: Global, range: BlockRange) -> Result<(), AllocError>
        requires { range.end ≤ length self.old * PAGE_BLOCKS }
        ensures ok { OnOk result (MakesPages self.old self.new (is_page_of range)) }
        ensures err { OnErr result (self.new ≡ self.old) }
        ensures disk { disk_of self.new ≡ disk_of self.old }
    {
        if range.first >= range.end {
            return Ok(());
        }
        let last = (range.end - 1) / PAGE_BLOCKS;
        self.make_pages(alloc, range.first / PAGE_BLOCKS, last + 1)
    }

    /// The same of the pages from the first up to the end.
    fn make_pages(&mut self, alloc: Global, first: u32, end: u32) -> Result<(), AllocError>
        requires { end ≤ length self.old }
        ensures ok { OnOk result (MakesPages self.old self.new (λ p. nat_le first p && nat_lt p end)) }
        ensures err { OnErr result (self.new ≡ self.old) }
    {
        if first >= end {
            return Ok(());
        }
        if self.pages[first as usize].is_made() {
            return self.make_pages(alloc, first + 1, end);
        }
        // The memory of all tables is taken before one of them is put in, so that want of it changes nothing.
        let table = Page::made(alloc)?;
        self.make_pages(alloc, first + 1, end)?;
        self.pages[first as usize] = table;
        Ok(())
    }

    pub fn present(&self, block: u32) -> bool
        ensures { result ≡ is_some (block_at self.now block) }
    {
        self.get(block).is_some()
    }

    #[tactic(auto, unfolding(crate::specs::Image::block_at))]
    pub fn get(&self, block: u32) -> Option<&Block>
        ensures value { option_copied result ≡ block_at self.now block }
        ensures whole { IfSome result (λ b. length b.now ≡ BLOCK_BYTES) }
        ensures disk { let start = block * BLOCK_BYTES in block / PAGE_BLOCKS < length self.now
            → slice_range (disk_of self.now) start (start + BLOCK_BYTES)
            ≡ bytes_of (option_copied result) }
    {
        match self.pages.get((block / PAGE_BLOCKS) as usize) {
            Some(page) => page.get((block % PAGE_BLOCKS) as usize),
            None => None,
        }
    }

    /// Puts a block in, and gives back the one that was there.
    pub fn put(&mut self, block: u32, new: Box<Block>) -> Option<Box<Block>>
        requires { IsTrue (has_page self.old (block / PAGE_BLOCKS)) }
        ensures changes { ChangesBlock self.old self.new block (Some new.value) }
        ensures old { option_map (λ b. b.value) result ≡ block_at self.old block }
        ensures whole { length new.value ≡ BLOCK_BYTES }
        ensures disk { disk_of self.new
            ≡ with_bytes_at (disk_of self.old) (block * BLOCK_BYTES) new.value }
    {
        self.pages[(block / PAGE_BLOCKS) as usize].put((block % PAGE_BLOCKS) as usize, new)
    }

    /// Writes over part of a block that is there, and is false where there is none.
    pub fn overwrite(&mut self, block: u32, start: usize, bytes: &[u8]) -> bool
        requires { start + length bytes.now ≤ BLOCK_BYTES }
        ensures there { result ≡ is_some (block_at self.old block) }
        ensures absent { result ≡ false → self.new ≡ self.old }
        ensures changes { ChangesBlock self.old self.new block
            (option_map (λ b. with_bytes_at b start bytes.now) (block_at self.old block)) }
        ensures disk { IsTrue result → disk_of self.new
            ≡ with_bytes_at (disk_of self.old) (block * BLOCK_BYTES + start) bytes.now }
    {
        let page = (block / PAGE_BLOCKS) as usize;
        if page >= self.pages.len() {
            return false;
        }
        self.pages[page].overwrite((block % PAGE_BLOCKS) as usize, start, bytes)
    }

    /// Moves the blocks of a page onto the image below, over its own. The boxes move, and nothing is copied.
    pub fn move_page_onto(&mut self, page: u32, below: &mut Image)
        requires own { page < length self.old }
        requires under { page < length below.old }
        ensures own { EmptiesPage self.old self.new page }
        ensures under { LaysPageOver self.old below.old below.new page }
    {
        self.pages[page as usize].move_onto(&mut below.pages[page as usize]);
    }
    /// Copies the blocks of a page into a page that is lent, which has the same after. Where the page has none it is
    /// false, and the boxes that are lent stay. It takes no memory.
    pub fn copy_page(&self, page: u32, into: &mut Page) -> bool
        requires inside { page < length self.now }
        requires lent { IsLent into.old }
        ensures some { result ≡ true → HasBlock (table_at self.now page) }
        ensures none { result ≡ false → HasNoBlock (table_at self.now page) }
        ensures copied { result ≡ true → into.new ≡ table_at self.now page }
        ensures same { result ≡ false → into.new ≡ into.old }
    {
        into.copy_of(&self.pages[page as usize])
    }

    /// Swaps a page with another. The boxes move, and nothing is copied.
    pub fn swap_page(&mut self, page: u32, with: &mut Page)
        requires { page < length self.old }
        ensures own { PutsTable self.old self.new page with.old }
        ensures back { with.new ≡ table_at self.old page }
        ensures table { IsTable with.old }
    {
        // What a page keeps, a proof learns here.
        let _made = with.is_made();
        mem::swap(&mut self.pages[page as usize], with);
    }
}
