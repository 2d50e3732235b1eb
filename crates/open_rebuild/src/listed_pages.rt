ghost use Rattle.std.specs.Prelude.{◌≡◌, ℕ, ◌<◌, length, replicate, true, false, slice_set, IfOk, MatchOption};
ghost use Rattle.open_rebuild.specs.Listed.{flag_at, AreListed, IsFirstLeft};

use std::alloc::{AllocError, Global};
use std::marker::Model;

/// Which pages of the frozen layers are copied: one bit for each, layer by layer and page by page, whose places are made
/// before anything is copied.
#[derive(Drop)]
pub struct ListedPages {
    bits: Vec<bool>,
    /// The first that is not listed, so that no search begins anew with each page.
    first: usize,
}

impl Model for ListedPages {
    ghost use Rattle.std.specs.Prelude.{List, Bool};
    ghost use Rattle.open_rebuild.specs.Listed.{IsSought};

    ghost Value = { List Bool };

    ghost view = { λ p. p.bits.items };

    ghost invariant = { λ p. IsSought p.bits.items p.first };
}

impl ListedPages {
    /// So many pages, none of which is listed.
    pub fn with_count(alloc: Global, count: usize) -> Result<ListedPages, AllocError>
        ensures { IfOk result (λ pages. pages ≡ replicate count false) }
    {
        let mut bits = Vec::with_capacity(alloc, count)?;
        for _page in 0..count {
            bits.push(false)?;
        }
        Ok(ListedPages { bits, first: 0 })
    }

    pub fn count(&self) -> usize
        ensures { result ≡ length self.now }
    {
        self.bits.len()
    }

    pub fn is_listed(&self, place: usize) -> bool
        ensures { result ≡ flag_at self.now place }
    {
        place < self.bits.len() && self.bits[place]
    }

    /// The first page that is not listed. None where all are.
    pub fn next(&self) -> Option<usize>
        ensures { MatchOption result (AreListed self.now (length self.now)) (IsFirstLeft self.now) }
    {
        if self.first < self.bits.len() {
            Some(self.first)
        } else {
            None
        }
    }

    /// The page at a place is copied. It takes no memory.
    pub fn list(&mut self, place: usize)
        requires { place < length self.old }
        ensures { self.new ≡ slice_set self.old place true }
    {
        self.bits[place] = true;
        while self.first < self.bits.len() && self.bits[self.first] {
            self.first += 1;
        }
    }
}
