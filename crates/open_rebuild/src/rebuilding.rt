ghost use Rattle.std.specs.Prelude.{◌≡◌, ◌↔◌, ◌<◌, ◌+◌, ◌*◌, length, Contains, IsTrue, IfOk, MatchOption};
ghost use Rattle.vol_units.specs.Name.{sys_name};
ghost use Rattle.open_rebuild.specs.Listed.{AreListed, place_of};
ghost use Rattle.open_rebuild.specs.Claim.{HasBits, IsNew, with_page};
ghost use Rattle.open_rebuild.specs.Pages.{IsFrozenPage, IsPageLeft, HasNoneLeft, IsNextLeft};

use crate::frozen_layers::FrozenLayers;
use crate::listed_pages::ListedPages;
use replica_node::{LayerName, ReplicaNode};
use std::alloc::{AllocError, Global};
use vol_units::PageRef;

/// A rebuild that is open: the replica that is rebuilt, its source, and how far it has come.
#[derive(Drop)]
pub struct Rebuilding {
    pub target: u8,
    pub source: u8,
    pub frozen: FrozenLayers,
    /// Of each layer, 2 MiB each.
    pub pages: u32,
    /// A bit for each page of each frozen layer, layer by layer.
    pub listed: ListedPages,
    /// Whether the barrier has ended, so that pages may be copied.
    pub may_copy: bool,
}

impl Rebuilding {
    /// The rebuild of `target` from the replica `source`, whose head its barrier will close under the engine's own name
    /// of the head's number. All places of the list are made here.
    pub fn begin(
        alloc: Global,
        target: u8,
        source: u8,
        node: &ReplicaNode,
    ) -> Result<Rebuilding, AllocError>
        ensures { IfOk result (λ b. (b.target ≡ target) × (b.source ≡ source)
            × IsNew (length node.now.disk) node.now (sys_name node.now.number) b) }
    {
        // That they are few, a proof learns here.
        let _count = node.layer_count();
        let layers = node.layer_names(alloc)?;
        let own = LayerName::sys(node.head_number());
        let frozen = FrozenLayers::behind(alloc, &layers, own)?;
        let pages = node.page_count();
        let listed = ListedPages::with_count(alloc, frozen.count() * pages as usize)?;
        Ok(Rebuilding {
            target,
            source,
            frozen,
            pages,
            listed,
            may_copy: false,
        })
    }

    /// The first page that is left to copy, in the order of layers and pages.
    pub fn next(&self) -> Option<PageRef>
        requires { HasBits self.now }
        ensures { MatchOption result (HasNoneLeft self.now) (IsNextLeft self.now) }
    {
        if !self.may_copy {
            return None;
        }
        match self.listed.next() {
            Some(place) => Some(self.page_at(place)),
            None => None,
        }
    }

    /// Whether the page is one of a frozen layer, and pages may be copied.
    pub fn is_frozen(&self, page: &PageRef) -> bool
        ensures { IsTrue result ↔ IsFrozenPage self.now page.now }
    {
        self.may_copy && page.page < self.pages && self.frozen.has(&page.layer)
    }

    /// Whether the page is left to copy.
    pub fn is_left(&self, page: &PageRef) -> bool
        requires { HasBits self.now }
        ensures { IsTrue result ↔ IsPageLeft self.now page.now }
    {
        self.is_frozen(page) && !self.listed.is_listed(self.place_of(&page.layer, page.page))
    }

    /// Whether each page is copied.
    pub fn is_copied(&self) -> bool
        ensures { IsTrue result ↔ AreListed self.now.listed (length self.now.listed) }
    {
        self.listed.next().is_none()
    }

    /// A page of the layer is copied. It takes no memory.
    pub fn list(&mut self, layer: &LayerName, page: u32)
        requires layer { Contains self.old.frozen layer.now }
        requires page { page < self.old.pages }
        requires bits { HasBits self.old }
        ensures { self.new ≡ with_page self.old layer.now page }
    {
        let place = self.place_of(layer, page);
        self.listed.list(place);
    }

    /// The place of a page of the layer among the bits.
    fn place_of(&self, layer: &LayerName, page: u32) -> usize
        requires layer { Contains self.now.frozen layer.now }
        requires page { page < self.now.pages }
        requires bits { HasBits self.now }
        ensures value { result ≡ place_of self.now.frozen layer.now * self.now.pages + page }
        ensures within { result < length self.now.listed }
    {
        let pages = self.pages as usize;
        // The bits are there, so their number is known to be one that fits.
        let _count = self.listed.count();
        self.frozen.place(layer) * pages + page as usize
    }

    /// The page at a place among the bits.
    fn page_at(&self, place: usize) -> PageRef
        requires place { place < length self.now.listed }
        requires bits { HasBits self.now }
        ensures layer { Contains self.now.frozen result.layer }
        ensures page { result.page < self.now.pages }
        ensures place { place_of self.now.frozen result.layer * self.now.pages + result.page ≡ place }
    {
        let pages = self.pages as usize;
        PageRef {
            layer: self.frozen.name_at(place / pages),
            page: (place % pages) as u32,
        }
    }
}
