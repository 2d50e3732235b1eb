ghost use Rattle.std.specs.Prelude.{◌≡◌, IfOk, OnOk, true};
ghost use Rattle.outer_traits.specs.Causes.{HasOuterCause};
ghost use Rattle.shelf_traits.specs.Files.{Both, OthersStay};
ghost use Rattle.replica_node.specs.Node.{has_own};
ghost use Rattle.replica_node.specs.Places.{IsPlace, disk_at, own_at};
ghost use Rattle.folder_names.specs.Files.{map_of};
ghost use Rattle.replica_shelf.specs.Folder.{IsMapOf};
ghost use Rattle.replica_shelf.specs.Saving.{ListsAll, IsRun};

use crate::blocks::{block_count, has_own, next_own};
use crate::file::put_file;
use chain_meta::ImageName;
use folder_names::map_file;
use image_maps::{BlockSpan, write_map};
use replica_node::ReplicaNode;
use shelf_traits::{Outer, Shelves};
use std::alloc::{AllocError, Global};

/// Writes the map of the layer at a place, or of the head where none is given, as that of an image.
pub(crate) fn put_map<S: Shelves>(
    alloc: Global,
    node: &ReplicaNode,
    place: Option<usize>,
    image: &ImageName,
    shelf: u8,
    shelves: &mut S,
) -> Outer<()>
    requires { IsPlace node.now place }
    ensures ok { OnOk result (Both (S.holds shelves.old) (S.holds shelves.new)
        (λ old new. IsMapOf (new shelf) image.now (own_at node.now place))) }
    ensures others { Both (S.holds shelves.old) (S.holds shelves.new) (OthersStay shelf (map_of image.now)) }
    ensures cause { HasOuterCause (S.faults shelves.old) (S.faults shelves.new) result }
{
    let spans = spans_of(alloc, node, place)?;
    let text = write_map(alloc, spans.as_slice())?;
    let file = map_file(alloc, image)?;
    put_file(file.as_str(), text.as_slice(), shelf, shelves)
}

/// The runs of the blocks that the layer itself has.
fn spans_of(
    alloc: Global,
    node: &ReplicaNode,
    place: Option<usize>,
) -> Result<Vec<BlockSpan>, AllocError>
    requires { IsPlace node.now place }
    ensures { IfOk result (λ spans. ListsAll spans.items (own_at node.now place)) }
{
    let count = block_count(node, place);
    let mut spans = Vec::new(alloc);
    let mut first = next_own(node, place, 0);
    while first < count {
        let end = end_of_run(node, place, first);
        spans.push(BlockSpan {
            first,
            count: end - first,
        })?;
        // The block at the end of a run is not there.
        first = next_own(node, place, end + 1);
    }
    Ok(spans)
}

/// The end of the run of own blocks that begins with that one.
fn end_of_run(node: &ReplicaNode, place: Option<usize>, first: u32) -> u32
    requires place { IsPlace node.now place }
    requires own { has_own (own_at node.now place) first ≡ true }
    ensures { IsRun (own_at node.now place) first result }
{
    let count = block_count(node, place);
    for end in first + 1..count {
        if !has_own(node, place, end) {
            return end;
        }
    }
    count
}
