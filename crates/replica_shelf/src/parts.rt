ghost use Rattle.std.specs.Prelude.{◌≡◌, OnOk, length};
ghost use Rattle.outer_traits.specs.Causes.{HasOuterCause};
ghost use Rattle.shelf_traits.specs.Files.{Both};
ghost use Rattle.replica_node.specs.Places.{IsPlace, disk_at, own_at};
ghost use Rattle.replica_shelf.specs.Folder.{image_at};
ghost use Rattle.replica_shelf.specs.Saving.{stamps_of, IsWritten, IsWrittenAt, AreWritten, IsBelow, IsClear, PartChanges, OnlyImages};

use crate::clearing::clear;
use crate::image::put_image;
use crate::map::put_map;
use crate::metas::{disk_meta, put_meta};
use crate::names::image_name;
use crate::saving::SaveMeta;
use chain_meta::{DiskMeta, ImageName};
use replica_node::ReplicaNode;
use shelf_traits::{Outer, Shelves};
use std::alloc::Global;

/// Writes the layers and the head in the place of all files of images that stand there, and what was written stays.
pub(crate) fn put_parts<S: Shelves>(
    alloc: Global,
    node: &ReplicaNode,
    meta: &SaveMeta,
    shelf: u8,
    shelves: &mut S,
) -> Outer<()>
    ensures ok { OnOk result (Both (S.holds shelves.old) (S.holds shelves.new)
        (λ old new. AreWritten (IsPlace node.now) (new shelf) (stamps_of meta.now) node.now)) }
    ensures others { Both (S.holds shelves.old) (S.holds shelves.new) (OnlyImages shelf) }
    ensures cause { HasOuterCause (S.faults shelves.old) (S.faults shelves.new) result }
{
    // That no name comes twice, a proof learns here.
    let _count = node.layer_count();
    clear(shelf, shelves)?;
    put_layers(alloc, node, meta, shelf, shelves)?;
    put_part(alloc, node, None, meta, shelf, shelves)?;
    shelves.sync(shelf)
}

fn put_layers<S: Shelves>(
    alloc: Global,
    node: &ReplicaNode,
    meta: &SaveMeta,
    shelf: u8,
    shelves: &mut S,
) -> Outer<()>
    ensures ok { OnOk result (Both (S.holds shelves.old) (S.holds shelves.new)
        (λ old new. IsClear (old shelf)
        → AreWritten (IsBelow (length node.now.layers)) (new shelf) (stamps_of meta.now) node.now)) }
    ensures others { Both (S.holds shelves.old) (S.holds shelves.new) (OnlyImages shelf) }
    ensures cause { HasOuterCause (S.faults shelves.old) (S.faults shelves.new) result }
{
    for place in 0..node.layer_count() - 1 {
        put_part(alloc, node, Some(place), meta, shelf, shelves)?;
    }
    Ok(())
}

/// Writes the three files of the layer at a place, or of the head where none is given.
fn put_part<S: Shelves>(
    alloc: Global,
    node: &ReplicaNode,
    place: Option<usize>,
    meta: &SaveMeta,
    shelf: u8,
    shelves: &mut S,
) -> Outer<()>
    requires { IsPlace node.now place }
    ensures ok { OnOk result (Both (S.holds shelves.old) (S.holds shelves.new)
        (λ old new. IsWrittenAt (new shelf) (stamps_of meta.now) node.now place)) }
    ensures others { Both (S.holds shelves.old) (S.holds shelves.new)
        (PartChanges shelf (image_at node.now place)) }
    ensures cause { HasOuterCause (S.faults shelves.old) (S.faults shelves.new) result }
{
    let image = image_name(alloc, node, place)?;
    let told = disk_meta(alloc, node, place, meta)?;
    put_files(alloc, node, place, &image, &told, shelf, shelves)
}

/// The same, where its image and what is told of it are made.
fn put_files<S: Shelves>(
    alloc: Global,
    node: &ReplicaNode,
    place: Option<usize>,
    image: &ImageName,
    meta: &DiskMeta,
    shelf: u8,
    shelves: &mut S,
) -> Outer<()>
    requires place { IsPlace node.now place }
    requires name { meta.now.name ≡ image.now }
    ensures ok { OnOk result (Both (S.holds shelves.old) (S.holds shelves.new)
        (λ old new. IsWritten (new shelf) image.now meta.now (disk_at node.now place) (own_at node.now place))) }
    ensures others { Both (S.holds shelves.old) (S.holds shelves.new) (PartChanges shelf image.now) }
    ensures cause { HasOuterCause (S.faults shelves.old) (S.faults shelves.new) result }
{
    // What names images have, a proof learns here.
    let file = image.as_str();
    put_map(alloc, node, place, image, shelf, shelves)?;
    put_image(node, place, file, shelf, shelves)?;
    put_meta(alloc, meta, shelf, shelves)
}
