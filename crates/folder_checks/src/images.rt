ghost use Rattle.std.specs.Prelude.{◌≡◌, ◌↔◌, IfOk, IfSome, IsTrue, MatchOption};
ghost use Rattle.std.specs.Option.{option_copied};
ghost use Rattle.outer_traits.specs.Causes.{HasOuterCause};
ghost use Rattle.folder_checks.specs.Told.{Told};
ghost use Rattle.folder_checks.specs.Images.{IsRight, HasLength, HasOtherLength, IsImageCheck};
ghost use Rattle.folder_checks.specs.Finding.{IsGoodFound, KeepsRight, IsKnownImage};

use crate::file::file_len;
use crate::maps::good_map;
use crate::metas::read_disk;
use crate::parts::{Damage, ImageCheck, ImageParts};
use chain_meta::{DiskMeta, ImageName, VolumeMeta};
use folder_names::{map_file, meta_file};
use shelf_traits::{Outer, Shelves};
use std::alloc::Global;

/// Looks at one image: its metadata, its map and its length. For the head it is given the metadata
/// of the volume.
pub fn image_check<S: Shelves>(
    alloc: Global,
    size: u64,
    block_count: u32,
    image: &ImageName,
    head: Option<&VolumeMeta>,
    shelf: u8,
    shelves: &mut S,
) -> Outer<ImageCheck>
    ensures same { S.holds shelves.new ≡ S.holds shelves.old }
    ensures told { IfOk result (λ found. Told (S.holds shelves.old)
        (λ files. IsImageCheck (files shelf) size block_count image.now (option_copied head.entry) found)) }
    ensures known { IfOk result (IsKnownImage block_count image.now (option_copied head.entry)) }
    ensures cause { HasOuterCause (S.faults shelves.old) (S.faults shelves.new) result }
{
    let meta = match good_meta(alloc, image, head, shelf, shelves)? {
        None => {
            let file = meta_file(alloc, image)?;
            return Ok(ImageCheck::Bad(Damage { file, place: 0 }));
        }
        Some(meta) => meta,
    };
    let spans = match good_map(alloc, block_count, image, shelf, shelves)? {
        Err(place) => {
            let file = map_file(alloc, image)?;
            return Ok(ImageCheck::Bad(Damage { file, place }));
        }
        Ok(spans) => spans,
    };
    match other_length(size, image, shelf, shelves)? {
        Some(place) => {
            let file = String::from_str(alloc, image.as_str())?;
            Ok(ImageCheck::Bad(Damage { file, place }))
        }
        None => Ok(ImageCheck::Good(ImageParts { meta, spans })),
    }
}

/// What is told of an image, or none where that is damaged.
fn good_meta<S: Shelves>(
    alloc: Global,
    image: &ImageName,
    head: Option<&VolumeMeta>,
    shelf: u8,
    shelves: &mut S,
) -> Outer<Option<DiskMeta>>
    ensures same { S.holds shelves.new ≡ S.holds shelves.old }
    ensures told { IfOk result (λ found. Told (S.holds shelves.old)
        (λ files. IsGoodFound (files shelf) image.now (option_copied head.entry) found)) }
    ensures known { IfOk result (λ found. IfSome found (IsRight image.now (option_copied head.entry))) }
    ensures cause { HasOuterCause (S.faults shelves.old) (S.faults shelves.new) result }
{
    let file = meta_file(alloc, image)?;
    let found = read_disk(alloc, file.as_str(), shelf, shelves)?;
    Ok(keep_right(image, head, found))
}

/// What was found, where it is right for the image.
fn keep_right(
    image: &ImageName,
    head: Option<&VolumeMeta>,
    found: Option<DiskMeta>,
) -> Option<DiskMeta>
    ensures { KeepsRight image.now (option_copied head.entry) found result }
{
    match found {
        None => None,
        Some(meta) => {
            if is_right(image, head, &meta) {
                Some(meta)
            } else {
                None
            }
        }
    }
}

fn is_right(image: &ImageName, head: Option<&VolumeMeta>, meta: &DiskMeta) -> bool
    ensures { IsTrue result ↔ IsRight image.now (option_copied head.entry) meta.now }
{
    if !same_image(&meta.name, image) {
        return false;
    }
    match head {
        None => true,
        Some(volume) => !meta.removed && same_parent(&meta.parent, &volume.parent),
    }
}

fn same_parent(one: &Option<ImageName>, other: &Option<ImageName>) -> bool
    ensures { IsTrue result ↔ (one.now ≡ other.now) }
{
    match (one, other) {
        (Some(one), Some(other)) => same_image(one, other),
        (None, None) => true,
        _ => false,
    }
}

fn same_image(one: &ImageName, other: &ImageName) -> bool
    ensures { IsTrue result ↔ (one.now ≡ other.now) }
{
    one.as_str() == other.as_str()
}

/// The length of an image that has another than that, or 0 where there is none.
pub fn other_length<S: Shelves>(
    size: u64,
    image: &ImageName,
    shelf: u8,
    shelves: &mut S,
) -> Outer<Option<u64>>
    ensures same { S.holds shelves.new ≡ S.holds shelves.old }
    ensures told { IfOk result (λ found. Told (S.holds shelves.old)
        (λ files. MatchOption found (HasLength (files shelf) image.now size)
        (HasOtherLength (files shelf) image.now size))) }
    ensures cause { HasOuterCause (S.faults shelves.old) (S.faults shelves.new) result }
{
    match file_len(image.as_str(), shelf, shelves)? {
        None => Ok(Some(0)),
        Some(len) => { if len == size { Ok(None) } else { Ok(Some(len)) } }
    }
}
