ghost use Rattle.std.specs.Prelude.{◌≡◌, ℕ, ◌+◌, ◌*◌, ◌/◌, ◌^◌, ◌<◌, ◌≤◌, List, length, None, Some, IsTrue, false, IfOk, IfSome, OnOk, OnErr, MatchOption, is_some};
ghost use Rattle.std.specs.Option.{option_copied, option_map};
ghost use Rattle.vol_units.specs.Bytes.{with_bytes_at};
ghost use Rattle.sparse_image.specs.Disk.{disk_of};
ghost use Rattle.sparse_image.specs.Image.{block_at, has_page, table_at, MakesPages, is_page_of, ChangesBlock};
ghost use Rattle.sparse_image.specs.Whole.{IsTable};
ghost use Rattle.layer_chain.specs.Tree.{IsBlank, IsWholeTree, IsNew, IsThere, IsAt, IsChild, IsParent, reads, head_reads, marked_chain, layer_at, name_of, parent_of};
ghost use Rattle.layer_chain.specs.Changes.{pushed, with_head, headed, snapped_tree, reverted_tree, marked_at, with_layers, MovesPage, PutsPage, IsEmptied, taken_out, replaced};
ghost use Rattle.layer_chain.specs.Children.{Tells, IsLeaf, IsOnlyChild, children_named};

use crate::chain::chain_in;
use crate::children::{Children, children_in, standing_in};
use crate::finding::{image_below, locate_in};
use crate::layer::{Layer, LayerMeta};
use crate::moving::move_page_in;
use crate::read_index::ReadIndex;
use crate::reading::{index_in, read_in};
use sparse_image::{BLOCK_BYTES, Block, Image, PAGE_BLOCKS, Page};
use std::alloc::{AllocError, Global};
use std::marker::Model;
use std::mem;
use vol_units::{BlockRange, LayerName, MOST_LAYERS};

/// The layers of a replica, the newest first, and its head.
#[derive(Drop)]
pub struct LayerTree {
    layers: Vec<Layer>,
    head: Image,
    on: Option<LayerName>,
    number: u64,
    /// Where blocks of the head are found. A contract does not see it.
    index: ReadIndex,
}

impl Model for LayerTree {
    ghost use Rattle.std.specs.Prelude.{vec_capacity};
    ghost use Rattle.layer_chain.specs.Tree.{Tree};
    ghost use Rattle.layer_chain.specs.Found.{IsRoomyTree};

    ghost Value = { Tree };

    ghost view = { λ t. record { layers = t.layers.items; head = t.head; on = t.on; number = t.number } };

    ghost invariant = { λ t. IsRoomyTree
        (record { layers = t.layers.items; head = t.head; on = t.on; number = t.number })
        (vec_capacity t.layers) t.index };
}

impl LayerTree {
    pub fn new(alloc: Global, page_count: u32) -> Result<LayerTree, AllocError>
        ensures { IfOk result (λ t. IsBlank t page_count) }
    {
        Ok(LayerTree {
            layers: Vec::with_capacity(alloc, MOST_LAYERS)?,
            head: Image::with_pages(alloc, page_count)?,
            on: None,
            number: 0,
            index: ReadIndex::new(alloc, page_count)?,
        })
    }

    /// The layers and the head.
    pub fn count(&self) -> usize
        ensures count { result ≡ length self.now.layers + 1 }
        ensures whole { IsWholeTree self.now }
    {
        self.layers.len() + 1
    }

    pub fn index_of(&self, name: &LayerName) -> Option<usize>
        ensures place { MatchOption result
            (IsNew name.now self.now.layers)
            (λ place. IsAt self.now.layers name.now place) }
        ensures there { IfSome result (λ _. IsThere (Some name.now) self.now.layers) }
    {
        index_in(&self.layers, name)
    }

    pub fn meta(&self, place: usize) -> &LayerMeta
        requires { place < length self.now.layers }
        ensures { result.now ≡ (layer_at self.now.layers place).meta }
    {
        &self.layers[place].meta
    }

    pub fn image(&self, place: usize) -> &Image
        requires { place < length self.now.layers }
        ensures { result.now ≡ (layer_at self.now.layers place).image }
    {
        &self.layers[place].image
    }

    pub fn head_number(&self) -> u64
        ensures { result ≡ self.now.number }
    {
        self.number
    }

    pub fn head_parent(&self) -> Option<LayerName>
        ensures on { result ≡ self.now.on }
        ensures there { IsThere self.now.on self.now.layers }
    {
        self.on
    }

    pub fn head_image(&self) -> &Image
        ensures { result.now ≡ self.now.head }
    {
        &self.head
    }

    /// What the layer reads as at a block: its own, or what its parent reads as. None is zeros.
    pub fn read_at(&self, layer: &LayerName, block: u32) -> Option<&Block>
        ensures value { option_copied result ≡ reads self.now.layers (Some layer.now) block }
        ensures whole { IfSome result (λ b. length b.now ≡ BLOCK_BYTES) }
    {
        read_in(&self.layers, layer, block)
    }

    /// What the head reads as at a block. None is zeros.
    #[tactic(auto, using(crate::proofs::ReadLemmas::head_root))]
    pub fn read_head(&self, block: u32) -> Option<&Block>
        ensures value { option_copied result ≡ head_reads self.now block }
        ensures whole { IfSome result (λ b. length b.now ≡ BLOCK_BYTES) }
    {
        let index = self.index.find(block);
        if index > 0 {
            let above = self.index.layer_count() + 1 - index as usize;
            return image_below(&self.head, &self.layers, &self.index, above).get(block);
        }
        if let Some(found) = self.head.get(block) {
            return Some(found);
        }
        match &self.on {
            Some(name) => read_in(&self.layers, name, block),
            None => None,
        }
    }

    /// Whether the head reads as a block that is there, and not as zeros for want of one. Where it does, the search
    /// down the chain is not needed again.
    pub fn locate(&mut self, block: u32) -> bool
        ensures there { result ≡ is_some (head_reads self.old block) }
        ensures same { self.new ≡ self.old }
    {
        locate_in(&self.head, &self.layers, &mut self.index, block) > 0
    }

    /// The place of the layer on which the layer at that place stands.
    pub fn parent_of(&self, place: usize) -> Option<usize>
        requires { place < length self.now.layers }
        ensures { MatchOption result
            (parent_of (layer_at self.now.layers place) ≡ None)
            (λ parent. IsParent self.now.layers parent place) }
    {
        match &self.layers[place].meta.parent {
            Some(name) => index_in(&self.layers, name),
            None => None,
        }
    }

    /// The names of a layer, of its parent, and so on down to the lowest, each with its mark. Of none there are none.
    pub fn chain_of(
        &self,
        alloc: Global,
        layer: Option<LayerName>,
    ) -> Result<Vec<(LayerName, bool)>, AllocError>
        ensures { IfOk result (λ chain. chain.items ≡ marked_chain self.now.layers layer) }
    {
        chain_in(alloc, &self.layers, layer)
    }

    /// The names of the layers that stand on that of the name, the newest first. That the head may stand on it too,
    /// `head_parent` tells.
    pub fn children(&self, alloc: Global, name: &LayerName) -> Result<Vec<LayerName>, AllocError>
        ensures { IfOk result (λ names. names.items ≡ children_named self.now.layers name.now) }
    {
        children_in(alloc, &self.layers, name)
    }

    /// What stands on the layer at a place. A layer that does is newer.
    pub fn standing_on(&self, place: usize) -> Children
        requires { place < length self.now.layers }
        ensures told { Tells self.now.layers self.now.on (length self.now.layers) place result }
        ensures newer { (c : ℕ) → c < length self.now.layers
            → IsChild self.now.layers c place → c < place }
    {
        standing_in(&self.layers, &self.on, place)
    }

    /// The same layers and the same head, all without a block.
    pub fn emptied(&self, alloc: Global, page_count: u32) -> Result<LayerTree, AllocError>
        ensures { IfOk result (λ t. IsEmptied self.now t page_count) }
    {
        let mut tree = LayerTree::new(alloc, page_count)?;
        // The oldest is pushed first, so that each parent is there before its child.
        for done in 0..self.layers.len() {
            let place = self.layers.len() - 1 - done;
            let meta = self.layers[place].meta.copied(alloc)?;
            let image = Image::with_pages(alloc, page_count)?;
            tree.push_layer(Layer { meta, image });
        }
        tree.put_head(self.number, self.on, Image::with_pages(alloc, page_count)?);
        Ok(tree)
    }

    /// One more layer, newer than the others.
    pub fn push_layer(&mut self, layer: Layer)
        requires room { length self.old.layers + 1 < MOST_LAYERS }
        requires new { IsNew layer.meta.name self.old.layers }
        requires parent { IsThere layer.meta.parent self.old.layers }
        ensures { self.new ≡ pushed self.old layer }
    {
        if let Err(_) = self.layers.insert(0, layer) {
            unreachable!()
        }
    }

    pub fn put_head(&mut self, number: u64, on: Option<LayerName>, image: Image)
        requires { IsThere on self.old.layers }
        ensures { self.new ≡ headed self.old number on image }
    {
        self.head = image;
        self.on = on;
        self.number = number;
        self.index.forget_all();
        self.index.stand_on(&self.layers, &self.on);
    }

    /// A snapshot: the head is the layer of that name, and a spare image the next head.
    pub fn snap_head(&mut self, name: LayerName, user_created: bool, spare: Image)
        requires room { length self.old.layers + 1 < MOST_LAYERS }
        requires new { IsNew name self.old.layers }
        requires empty { (block : ℕ) → block_at spare block ≡ None }
        requires number { self.old.number + 1 < 2 ^ 64 }
        ensures { self.new ≡ snapped_tree self.old name user_created spare }
    {
        let layer = Layer {
            meta: LayerMeta {
                name,
                parent: self.on,
                marked: false,
                user_created,
                created: None,
            },
            image: mem::replace(&mut self.head, spare),
        };
        if let Err(_) = self.layers.insert(0, layer) {
            unreachable!()
        }
        self.on = Some(name);
        self.number += 1;
        // What is known stays: indices are counted from the lowest layer, and the new head has no block.
        self.index.stand_on(&self.layers, &self.on);
    }

    /// A revert: the head is dropped, and a spare image is the next head, on the layer of that name.
    pub fn move_head(&mut self, name: LayerName, spare: Image)
        requires there { IsThere (Some name) self.old.layers }
        requires number { self.old.number + 1 < 2 ^ 64 }
        ensures { self.new ≡ reverted_tree self.old name spare }
    {
        self.put_head(self.number + 1, Some(name), spare);
    }

    /// The layer is to be removed.
    pub fn mark_layer(&mut self, place: usize)
        requires { place < length self.old.layers }
        ensures { self.new ≡ marked_at self.old place }
    {
        self.layers[place].meta.marked = true;
    }

    /// Moves the blocks of a page of a layer onto its parent. The boxes move, and nothing is copied.
    pub fn move_page(&mut self, parent: usize, child: usize, page: u32)
        requires parent { IsParent self.old.layers parent child }
        requires own { page < length (layer_at self.old.layers child).image }
        requires under { page < length (layer_at self.old.layers parent).image }
        ensures moves { MovesPage self.old.layers self.new.layers parent child page }
        ensures rest { self.new ≡ with_layers self.old self.new.layers }
    {
        move_page_in(&mut self.layers, parent, child, page);
        self.index.forget_page(page);
    }

    /// Swaps a page of the layer at a place with another. The boxes move, and nothing is copied.
    pub fn swap_page(&mut self, place: usize, page: u32, with: &mut Page)
        requires within { place < length self.old.layers }
        requires inside { page < length (layer_at self.old.layers place).image }
        ensures puts { PutsPage self.old.layers self.new.layers place page with.old }
        ensures rest { self.new ≡ with_layers self.old self.new.layers }
        ensures back { with.new ≡ table_at (layer_at self.old.layers place).image page }
        ensures table { IsTable with.old }
    {
        self.layers[place].image.swap_page(page, with);
        self.index.forget_page(page);
    }

    /// The layer goes, and the one that stands on it stands in its place, with its blocks.
    pub fn replace(&mut self, parent: usize, child: usize)
        requires within { parent < length self.old.layers }
        requires only { IsOnlyChild self.old parent child }
        ensures { self.new ≡ replaced self.old parent child }
    {
        let gone = self.index.index_of(self.layers.len() - 1 - child);
        let Layer { meta, image } = self.layers.remove(parent);
        let upper = &mut self.layers[child];
        upper.meta.parent = meta.parent;
        upper.image = image;
        self.index.renumber(gone);
        self.index.stand_on(&self.layers, &self.on);
    }

    /// The layer goes, on which nothing stands.
    pub fn take_out(&mut self, place: usize)
        requires within { place < length self.old.layers }
        requires leaf { IsLeaf self.old place }
        ensures { self.new ≡ taken_out self.old place }
    {
        let _ = self.layers.remove(place);
        self.index.stand_on(&self.layers, &self.on);
    }

    /// Makes the tables of the pages of a range in the head, wherever one is not there. No block changes.
    pub fn make_room(&mut self, alloc: Global, range: BlockRange) -> Result<(), AllocError>
        requires { range.end ≤ length self.old.head * PAGE_BLOCKS }
        ensures ok { OnOk result (MakesPages self.old.head self.new.head (is_page_of range)) }
        ensures err { OnErr result (self.new ≡ self.old) }
        ensures disk { disk_of self.new.head ≡ disk_of self.old.head }
        ensures rest { self.new ≡ with_head self.old self.new.head }
    {
        self.head.make_room(alloc, range)
    }

    /// Puts a block into the head, and gives back the one that was there.
    pub fn put(&mut self, block: u32, new: Box<Block>) -> Option<Box<Block>>
        requires { IsTrue (has_page self.old.head (block / PAGE_BLOCKS)) }
        ensures changes { ChangesBlock self.old.head self.new.head block (Some new.value) }
        ensures old { option_map (λ b. b.value) result ≡ block_at self.old.head block }
        ensures whole { length new.value ≡ BLOCK_BYTES }
        ensures disk { disk_of self.new.head
            ≡ with_bytes_at (disk_of self.old.head) (block * BLOCK_BYTES) new.value }
        ensures rest { self.new ≡ with_head self.old self.new.head }
    {
        self.index.learn_head(block);
        self.head.put(block, new)
    }

    /// Writes over part of a block that the head has, and is false where it has none.
    pub fn overwrite(&mut self, block: u32, start: usize, bytes: &[u8]) -> bool
        requires { start + length bytes.now ≤ BLOCK_BYTES }
        ensures there { result ≡ is_some (block_at self.old.head block) }
        ensures absent { result ≡ false → self.new ≡ self.old }
        ensures changes { ChangesBlock self.old.head self.new.head block
            (option_map (λ b. with_bytes_at b start bytes.now) (block_at self.old.head block)) }
        ensures disk { IsTrue result → disk_of self.new.head
            ≡ with_bytes_at (disk_of self.old.head) (block * BLOCK_BYTES + start) bytes.now }
        ensures rest { self.new ≡ with_head self.old self.new.head }
    {
        let is_there = self.head.overwrite(block, start, bytes);
        if is_there {
            self.index.learn_head(block);
        }
        is_there
    }
}
