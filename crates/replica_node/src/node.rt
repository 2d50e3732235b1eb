ghost use Rattle.std.specs.Prelude.{◌≡◌, ◌↔◌, ℕ, ◌+◌, ◌*◌, ◌/◌, ◌^◌, ◌<◌, ◌≤◌, ◌++◌, length, Some, IfOk, IfSome, OnOk, OnErr, MatchOption, All, IsTrue, is_some, true, false};
ghost use Rattle.std.specs.Option.{option_copied};
ghost use Rattle.vol_units.specs.Bytes.{zeros, bytes_at, with_bytes_at};
ghost use Rattle.vol_units.specs.declared.size.TheConstants.{LARGEST_SIZE, PAGE_BYTES};
ghost use Rattle.sparse_image.specs.Image.{IsLent};
ghost use Rattle.layer_chain.specs.Tree.{IsAt, IsThere, IsWholeTree};
ghost use Rattle.sparse_image.specs.Listed.{bytes_in};
ghost use Rattle.replica_node.specs.Room.{HasRoom, KeepsRoom, with_room, with_room_of, put_at, head_blocks};
ghost use Rattle.replica_node.specs.Shape.{AreLayers};
ghost use Rattle.volume_model.specs.Names.{NamesOnce};
ghost use Rattle.volume_model.specs.Purge.{CanFold, CanDrop, next_in};
ghost use Rattle.volume_model.specs.Snapshots.{is_live, chain_of};
ghost use Rattle.coalesce.specs.Way.{IsWayOf, HasNoWay};
ghost use Rattle.replica_node.specs.Node.{Kept, blank, snapped_node, reverted_node, marked, disk_of_layer, layer_names, has_own, node_of, IsOfSize, IsKept, IsFree, IsSpareOf};
ghost use Rattle.replica_node.specs.Fold.{tree_of, snapshots_of, HasOwnOf, HasNoOwnOf, HasBlockOf, HasNoBlockOf, IsBare, page_folded, replaced_node, folded_away, dropped_node};
ghost use Rattle.replica_node.specs.Held.{IsChained, IsPageOf, PutsPage, emptied};
ghost use Rattle.replica_node.specs.Places.{kept_at, IsPlace, own_at, block_of_place, IsBuiltOf};

use crate::fold::fold_pages;
use crate::images::learn_images;
use crate::names::names_in;
use crate::own::{has_block, has_block_of};
use crate::reading::{append_part, block_of, reads_same, zero_block};
use crate::swap::swap_into;
use layer_chain::{LayerMeta, LayerTree};
use snapshot_ops::Spare;
use sparse_image::{BLOCK_BYTES, Block, Blocks, Page};
use std::alloc::{AllocError, Global};
use std::marker::Model;
use vol_units::{BlockRange, LayerName, MOST_LAYERS, VolumeSize};
use volume_model::FoldOrDrop;

/// One replica. A contract sees what its head and each of its layers read as.
#[derive(Drop)]
pub struct ReplicaNode {
    tree: LayerTree,
    size: VolumeSize,
}

impl Model for ReplicaNode {
    ghost use Rattle.std.specs.Prelude.{◌/◌};
    ghost use Rattle.vol_units.specs.declared.size.TheConstants.{BLOCK_BYTES};
    ghost use Rattle.replica_node.specs.Node.{Node, node_of, IsNode};

    ghost Value = { Node };

    ghost view = { λ n. node_of n.tree (n.size / BLOCK_BYTES) };

    ghost invariant = { λ n. IsNode n.tree (n.size / BLOCK_BYTES) };
}

impl ReplicaNode {
    /// The replica that a tree is, whose head and layers have a place for each page of the volume.
    pub fn of_tree(size: VolumeSize, tree: LayerTree) -> ReplicaNode
        requires { IsOfSize tree (size / BLOCK_BYTES) }
        ensures node { result ≡ node_of tree (size / BLOCK_BYTES) }
        ensures built { IsBuiltOf tree size result }
    {
        // What its images keep, that the layers are a tree, and that a size is whole blocks, a proof learns here.
        learn_images(&tree);
        let _count = tree.count();
        let _blocks = size.block_count();
        ReplicaNode { tree, size }
    }

    /// A replica of zeros, with no layer below its head.
    pub fn blank(alloc: Global, size: VolumeSize) -> Result<ReplicaNode, AllocError>
        ensures { IfOk result (λ node. node ≡ blank size) }
    {
        let tree = LayerTree::new(alloc, size.page_count())?;
        Ok(ReplicaNode::of_tree(size, tree))
    }

    /// The same layers and head, all without a block: what a replica is at first that is to be rebuilt from this one.
    pub fn blank_like(&self, alloc: Global) -> Result<ReplicaNode, AllocError>
        ensures { IfOk result (λ node. node ≡ emptied self.now) }
    {
        let tree = self.tree.emptied(alloc, self.size.page_count())?;
        Ok(ReplicaNode::of_tree(self.size, tree))
    }

    /// A head for the next snapshot or revert. It takes all memory that they need.
    pub fn spare_head(&self, alloc: Global) -> Result<Spare, AllocError>
        ensures { IfOk result (IsSpareOf self.now) }
    {
        Spare::new(alloc, self.size.page_count())
    }

    /// Keeps what the head reads as under a name. It takes no memory.
    pub fn snapshot(&mut self, name: LayerName, spare: Spare)
        requires spare { IsSpareOf self.old spare }
        requires layers { length self.old.layers + 1 < MOST_LAYERS }
        requires free { IsFree self.old name }
        requires number { self.old.number + 1 < 2 ^ 64 }
        ensures { self.new ≡ snapped_node self.old name }
    {
        snapshot_ops::snapshot(&mut self.tree, name, spare);
    }

    /// Drops the head, and lets a new one stand on the layer of the name. It takes no memory.
    pub fn revert(&mut self, name: LayerName, spare: Spare)
        requires spare { IsSpareOf self.old spare }
        requires kept { IsKept self.old (Some name) }
        requires number { self.old.number + 1 < 2 ^ 64 }
        ensures { self.new ≡ reverted_node self.old name }
    {
        snapshot_ops::revert(&mut self.tree, name, spare);
    }

    /// Marks the layer of the name as one that is to be removed.
    pub fn mark(&mut self, name: LayerName)
        requires { IsKept self.old (Some name) }
        ensures { self.new ≡ marked self.old name }
    {
        // That no name comes twice, a proof learns here.
        let _count = self.tree.count();
        snapshot_ops::mark(&mut self.tree, &name);
    }

    /// What a purge folds or drops next.
    pub fn next_fold(&self) -> Option<FoldOrDrop>
        ensures { result ≡ next_in (tree_of self.now) self.now.on }
    {
        coalesce::next_fold(&self.tree)
    }

    /// How the layer of the name can go: folded into its one child, or dropped. One that is not there has no way.
    pub fn way_of(&self, name: &LayerName) -> Option<FoldOrDrop>
        ensures { MatchOption result
            (HasNoWay (tree_of self.now) self.now.on name.now)
            (λ part. IsWayOf (tree_of self.now) self.now.on name.now part) }
    {
        coalesce::way_of(&self.tree, name)
    }

    /// Folds a page of the child onto its parent, which is to be removed. It takes no memory.
    pub fn fold_step(&mut self, parent: &LayerName, child: &LayerName, page: u32)
        requires can { CanFold (tree_of self.old) self.old.on parent.now child.now }
        requires inside { page * PAGE_BYTES < length self.old.disk }
        ensures { self.new ≡ page_folded self.old parent.now child.now page }
    {
        // That no name comes twice, a proof learns here.
        let _count = self.tree.count();
        let places = coalesce::fold_places(&self.tree, parent, child);
        coalesce::fold_page(&mut self.tree, places, page);
    }

    /// Folds all pages of the child onto its parent, and lets the parent go, whose names are looked up once
    /// for all pages. It takes no memory.
    pub fn fold(&mut self, parent: &LayerName, child: &LayerName)
        requires { CanFold (tree_of self.old) self.old.on parent.now child.now }
        ensures { self.new ≡ folded_away self.old parent.now child.now }
    {
        let places = coalesce::fold_places(&self.tree, parent, child);
        fold_pages(&mut self.tree, places, self.size.page_count());
        // That no name comes twice, a proof learns here.
        let _count = self.tree.count();
        coalesce::replace(&mut self.tree, parent, child);
    }

    /// Lets the parent go, once each page of the child is folded onto it, and the child takes its
    /// place. It takes no memory.
    pub fn replace(&mut self, parent: &LayerName, child: &LayerName)
        requires can { CanFold (tree_of self.old) self.old.on parent.now child.now }
        requires empty { IsBare self.old.layers child.now }
        ensures { self.new ≡ replaced_node self.old parent.now child.now }
    {
        // That no name comes twice, a proof learns here.
        let _count = self.tree.count();
        coalesce::replace(&mut self.tree, parent, child);
    }

    /// Lets a layer go on which nothing stands. It takes no memory.
    pub fn delete(&mut self, name: &LayerName)
        requires { CanDrop (tree_of self.old) self.old.on name.now }
        ensures { self.new ≡ dropped_node self.old name.now }
    {
        // That no name comes twice, a proof learns here.
        let _count = self.tree.count();
        coalesce::delete_leaf(&mut self.tree, name);
    }

    /// Copies the blocks that a layer itself has of a page into a page that is lent. Where it has none it is false, and
    /// what is lent stays as it is. It takes no memory.
    pub fn copy_page_out(&self, layer: &LayerName, page: u32, into: &mut Page) -> bool
        requires kept { IsKept self.now (Some layer.now) }
        requires inside { page * PAGE_BYTES < length self.now.disk }
        requires lent { IsLent into.old }
        ensures some { result ≡ true → HasBlockOf self.now layer.now page }
        ensures none { result ≡ false → HasNoBlockOf self.now layer.now page }
        ensures copied { result ≡ true → IsPageOf self.now layer.now page into.new }
        ensures same { result ≡ false → into.new ≡ into.old }
    {
        let place = place_of(&self.tree, layer);
        self.tree.image(place).copy_page(page, into)
    }

    /// Puts a page in the place of the layer's own, which comes back. It takes no memory.
    pub fn copy_page_in(&mut self, layer: &LayerName, page: u32, with: &mut Page)
        requires kept { IsKept self.old (Some layer.now) }
        requires inside { page * PAGE_BYTES < length self.old.disk }
        ensures puts { PutsPage self.old self.new layer.now page with.old }
        ensures back { IsPageOf self.old layer.now page with.new }
    {
        let place = place_of(&self.tree, layer);
        self.tree.swap_page(place, page, with);
    }

    /// Makes places in the head for the blocks of a range, so that writing them takes no memory.
    pub fn make_room(&mut self, alloc: Global, range: BlockRange) -> Result<(), AllocError>
        requires { range.end * BLOCK_BYTES ≤ length self.old.disk }
        ensures ok { OnOk result (self.new ≡ with_room self.old range) }
        ensures err { OnErr result (self.new ≡ self.old) }

        // A write of the range finds its places, and nothing but places is new.
        ensures room { OnOk result (HasRoom self.new range) }
        ensures kept { KeepsRoom self.old self.new }
        ensures same { self.new ≡ with_room_of self.old self.new }
    {
        self.tree.make_room(alloc, range)
    }

    /// Puts blocks at a range of the head. Each is swapped with what the head itself had there. It takes
    /// no memory.
    pub fn write_blocks(&mut self, range: BlockRange, blocks: &mut Blocks)
        requires room { HasRoom self.old range }
        requires full { All (λ b. is_some b ≡ true) blocks.old }
        requires count { range.first + length blocks.old ≡ range.end }
        requires inside { range.end * BLOCK_BYTES ≤ length self.old.disk }
        ensures put { self.new ≡ put_at self.old range.first (bytes_in blocks.old) }
        ensures back { blocks.new ≡ head_blocks self.old range.first (length blocks.old) }
        ensures count { length blocks.new ≡ length blocks.old }
    {
        swap_into(&mut self.tree, range.first, blocks);
    }

    /// Writes over part of a block that the head itself has, and is false where it has none. It takes no memory.
    pub fn overwrite(&mut self, block: u32, start: usize, bytes: &[u8]) -> bool
        requires part { start + length bytes.now ≤ BLOCK_BYTES }
        requires inside { block * BLOCK_BYTES < length self.old.disk }
        ensures there { result ≡ has_own self.old.own block }
        ensures absent { result ≡ false → self.new ≡ self.old }
        ensures put { result ≡ true → self.new ≡ put_at self.old block
            (with_bytes_at (bytes_at self.old.disk (block * BLOCK_BYTES) BLOCK_BYTES) start bytes.now) }
    {
        self.tree.overwrite(block, start, bytes)
    }

    /// The layers and the head.
    pub fn layer_count(&self) -> usize
        ensures value { result ≡ length self.now.layers + 1 }
        ensures most { result ≤ MOST_LAYERS }
        ensures once { NamesOnce (tree_of self.now) }
    {
        self.tree.count()
    }

    pub fn head_number(&self) -> u64
        ensures { result ≡ self.now.number }
    {
        self.tree.head_number()
    }

    /// The layer on which the head stands, if there is one. Each layer below it stands on an older one, or on none.
    pub fn head_parent(&self) -> Option<LayerName>
        ensures on { result ≡ self.now.on }
        ensures kept { IsKept self.now result }
        ensures older { AreLayers self.now.layers }
    {
        // That the layers are a tree, a proof learns here.
        let _count = self.tree.count();
        self.tree.head_parent()
    }

    /// What is told of the layer at a place, the newest at 0.
    pub fn meta(&self, place: usize) -> &LayerMeta
        requires { place < length self.now.layers }
        ensures { result.now ≡ (kept_at self.now.layers place).meta }
    {
        self.tree.meta(place)
    }

    /// The block that the layer at a place, or the head where none is given, itself has. Nothing is copied.
    pub fn own_block(&self, place: Option<usize>, block: u32) -> Option<&Block>
        requires { IsPlace self.now place }
        ensures value { option_copied result ≡ block_of_place self.now place block }
        ensures whole { IfSome result (λ b. length b.now ≡ BLOCK_BYTES) }
    {
        // That the layers are a tree, a proof learns here.
        let _count = self.tree.count();
        match place {
            Some(place) => self.tree.image(place).get(block),
            None => self.tree.head_image().get(block),
        }
    }

    /// The names of the layers, the newest first, and room for one more.
    pub fn layer_names(&self, alloc: Global) -> Result<Vec<LayerName>, AllocError>
        ensures { IfOk result (λ names. names.items ≡ layer_names self.now.layers) }
    {
        names_in(alloc, &self.tree)
    }

    pub fn has_layer(&self, name: &LayerName) -> bool
        ensures kept { result ≡ true → IsKept self.now (Some name.now) }
        ensures free { result ≡ false → IsFree self.now name.now }
    {
        self.tree.index_of(name).is_some()
    }

    /// Whether the layer of the name is there and not marked.
    pub fn is_live(&self, name: &LayerName) -> bool
        ensures { result ≡ is_live (tree_of self.now) name.now }
    {
        // That no name comes twice, a proof learns here.
        let _count = self.tree.count();
        match self.tree.index_of(name) {
            Some(place) => !self.tree.meta(place).marked,
            None => false,
        }
    }

    /// Whether the layer of the name itself has a block of the page; one that is not there has none.
    pub fn has_blocks(&self, layer: &LayerName, page: u32) -> bool
        ensures some { result ≡ true → HasBlockOf self.now layer.now page }
        ensures none { result ≡ false → HasNoBlockOf self.now layer.now page }
    {
        // What the largest size is, and that no name comes twice, a proof learns here.
        let _size = self.size();
        let _count = self.tree.count();
        match self.tree.index_of(layer) {
            Some(place) => has_block_of(self.tree.image(place), page),
            None => false,
        }
    }

    /// Whether the layer at a place, or the head where none is given, itself has a block of the page.
    pub fn has_blocks_at(&self, place: Option<usize>, page: u32) -> bool
        requires { IsPlace self.now place }
        ensures some { result ≡ true → HasOwnOf (own_at self.now place) page }
        ensures none { result ≡ false → HasNoOwnOf (own_at self.now place) page }
    {
        // What the largest size is, a proof learns here.
        let _size = self.size();
        match place {
            Some(place) => has_block_of(self.tree.image(place), page),
            None => has_block_of(self.tree.head_image(), page),
        }
    }

    /// Whether the layer of the name itself has no block at all; one that is not there has none.
    pub fn is_bare(&self, layer: &LayerName) -> bool
        ensures bare { result ≡ true → IsBare self.now.layers layer.now }
        ensures kept { result ≡ false → (page : ℕ) × HasBlockOf self.now layer.now page }
    {
        // What the largest size is, and that no name comes twice, a proof learns here.
        let _size = self.size();
        let _count = self.tree.count();
        match self.tree.index_of(layer) {
            Some(place) => !has_block(self.tree.image(place)),
            None => true,
        }
    }

    /// The layers below the head, from its parent down, each with its mark.
    pub fn chain(&self, alloc: Global) -> Result<Vec<(LayerName, bool)>, AllocError>
        ensures { IfOk result (λ layers. layers.items ≡ chain_of (snapshots_of self.now)) }
    {
        self.tree.chain_of(alloc, self.tree.head_parent())
    }

    /// The bytes of the volume.
    pub fn size(&self) -> usize
        ensures value { result ≡ length self.now.disk }
        ensures most { result ≤ LARGEST_SIZE }
    {
        self.size.bytes() as usize
    }

    /// The blocks of the volume. What the head and each layer read as is made of the blocks that they themselves have.
    pub fn block_count(&self) -> u32
        ensures value { result * BLOCK_BYTES ≡ length self.now.disk }
        ensures own { All (λ (k : Kept). length k.own ≡ result) self.now.layers }
        ensures disks { All (λ (k : Kept). length k.disk ≡ length self.now.disk) self.now.layers }
        ensures chained { IsChained self.now result }
    {
        // That the layers are a tree, a proof learns here.
        let _count = self.tree.count();
        self.size.block_count()
    }

    pub fn page_count(&self) -> u32
        ensures { result * PAGE_BYTES ≡ length self.now.disk }
    {
        self.size.page_count()
    }

    /// Reads what a layer, or the head where none is named, reads as from a place on.
    pub fn read_bytes(&mut self, layer: Option<LayerName>, at: usize, into: &mut [u8])
        requires kept { IsKept self.old layer }
        requires inside { at + length into.old ≤ length self.old.disk }
        ensures bytes { into.new ≡ bytes_at (disk_of_layer self.old layer) at (length into.old) }
        ensures same { self.new ≡ self.old }
    {
        // What the largest size is, a proof learns here.
        let _size = self.size();
        let mut done = 0;
        while done < into.len() {
            let place = at + done;
            let start = place % BLOCK_BYTES;
            let piece = (BLOCK_BYTES - start).min(into.len() - done);
            let block = (place / BLOCK_BYTES) as u32;
            self.read_piece(&layer, block, start, &mut into[done..done + piece]);
            done += piece;
        }
    }

    /// Appends so many bytes of what the head reads as, from a place on.
    pub fn append_bytes(
        &mut self,
        at: usize,
        count: usize,
        into: &mut Vec<u8>,
    ) -> Result<(), AllocError>
        requires { at + count ≤ length self.old.disk }
        ensures bytes { OnOk result (into.new.items ≡ into.old.items ++ bytes_at self.old.disk at count) }
        ensures same { self.new ≡ self.old }
    {
        // What the largest size is, a proof learns here.
        let _size = self.size();
        let mut done = 0;
        while done < count {
            let place = at + done;
            let start = place % BLOCK_BYTES;
            let piece = (BLOCK_BYTES - start).min(count - done);
            self.append_piece((place / BLOCK_BYTES) as u32, start, piece, into)?;
            done += piece;
        }
        Ok(())
    }

    /// Appends a part of what the head reads as at a block.
    fn append_piece(
        &mut self,
        block: u32,
        start: usize,
        count: usize,
        into: &mut Vec<u8>,
    ) -> Result<(), AllocError>
        requires inside { block * BLOCK_BYTES < length self.old.disk }
        requires part { start + count ≤ BLOCK_BYTES }
        ensures bytes { OnOk result (into.new.items
            ≡ into.old.items ++ bytes_at self.old.disk (block * BLOCK_BYTES + start) count) }
        ensures same { self.new ≡ self.old }
    {
        if !self.locate(&None, block) {
            return append_part(zero_block(), start, count, into);
        }
        append_part(self.block(&None, block), start, count, into)
    }

    /// Reads a part of what a layer, or the head, reads as at a block.
    fn read_piece(&mut self, layer: &Option<LayerName>, block: u32, start: usize, into: &mut [u8])
        requires kept { IsKept self.old layer.now }
        requires inside { block * BLOCK_BYTES < length self.old.disk }
        requires part { start + length into.old ≤ BLOCK_BYTES }
        ensures bytes { into.new
            ≡ bytes_at (disk_of_layer self.old layer.now) (block * BLOCK_BYTES + start) (length into.old) }
        ensures same { self.new ≡ self.old }
    {
        if !self.locate(layer, block) {
            into.fill(0);
            return;
        }
        let found = self.block(layer, block);
        into.copy_from_slice(&found[start..start + into.len()]);
    }

    /// Whether a layer, or the head, may read as other than zeros at a block. Where the head does, the search down its
    /// chain is not needed again.
    fn locate(&mut self, layer: &Option<LayerName>, block: u32) -> bool
        requires kept { IsKept self.old layer.now }
        requires inside { block * BLOCK_BYTES < length self.old.disk }
        ensures zeros { result ≡ false
            → bytes_at (disk_of_layer self.old layer.now) (block * BLOCK_BYTES) BLOCK_BYTES
            ≡ zeros BLOCK_BYTES }
        ensures same { self.new ≡ self.old }
    {
        match layer {
            // Only the head's chain is known.
            Some(_) => true,
            None => self.tree.locate(block),
        }
    }

    /// What a layer, or the head, reads as at a block. Nothing is copied.
    pub fn block(&self, layer: &Option<LayerName>, block: u32) -> &[u8]
        requires kept { IsKept self.now layer.now }
        requires inside { block * BLOCK_BYTES < length self.now.disk }
        ensures disk { result.now
            ≡ bytes_at (disk_of_layer self.now layer.now) (block * BLOCK_BYTES) BLOCK_BYTES }
        ensures whole { length result.now ≡ BLOCK_BYTES }
    {
        // What the largest size is, a proof learns here.
        let _size = self.size();
        block_of(&self.tree, layer, block)
    }

    /// Whether two heads read the same at a block. It looks at no byte where both have no such block, not
    /// even below them.
    pub fn same_block(&self, other: &ReplicaNode, block: u32) -> bool
        requires inside { block * BLOCK_BYTES < length self.now.disk }
        requires other { block * BLOCK_BYTES < length other.now.disk }
        ensures { let start = block * BLOCK_BYTES in IsTrue result
            ↔ (bytes_at self.now.disk start BLOCK_BYTES ≡ bytes_at other.now.disk start BLOCK_BYTES) }
    {
        reads_same(self.tree.read_head(block), other.tree.read_head(block))
    }
}

/// The place of the layer of a name.
fn place_of(tree: &LayerTree, name: &LayerName) -> usize
    requires { IsThere (Some name.now) tree.now.layers }
    ensures at { IsAt tree.now.layers name.now result }
    ensures whole { IsWholeTree tree.now }
{
    // That the layers are a tree, a proof learns here.
    let _count = tree.count();
    match tree.index_of(name) {
        Some(place) => place,
        None => unreachable!(),
    }
}
