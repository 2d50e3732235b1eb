ghost use Rattle.std.specs.Prelude.{◌≡◌, ◌==◌, ◌+◌, ◌*◌, ◌/◌, ◌≤◌, ◌<◌, length, IfOk};
ghost use Rattle.vol_units.specs.Size.{IsVolumeSize};
ghost use Rattle.vol_units.specs.declared.size.TheConstants.{BLOCK_BYTES as VOLUME_BLOCK};
ghost use Rattle.vol_units.specs.declared.size.TheConstants.{PAGE_BYTES};
ghost use Rattle.sparse_image.specs.declared.block.TheConstants.{PAGE_BLOCKS};
ghost use Rattle.outer_traits.specs.Causes.{HasOuterCause};
ghost use Rattle.image_maps.specs.Maps.{AreSpans, is_within, has_block};
ghost use Rattle.folder_checks.specs.Told.{Told};
ghost use Rattle.folder_checks.specs.Images.{HasLength, HasOtherLength};
ghost use Rattle.folder_checks.specs.Checks.{IsMapped};
ghost use Rattle.replica_open.specs.Reading.{ReadsOrStops, IsImageRead, IsPartRead};

use chain_meta::ImageName;
use folder_checks::{Damage, ImageParts, other_length};
use image_maps::BlockSpan;
use shelf_traits::{Outer, Shelves};
use sparse_image::{BLOCK_BYTES, Image, PAGE_BLOCKS};
use std::alloc::Global;
use vol_units::VolumeSize;

/// The image whose parts these are: the blocks that its map lists. Or how it is damaged, where it
/// fell short.
pub(crate) fn read_part<S: Shelves>(
    alloc: Global,
    size: VolumeSize,
    part: &ImageParts,
    shelf: u8,
    shelves: &mut S,
) -> Outer<Result<Image, Damage>>
    requires { IsMapped (size / VOLUME_BLOCK) part.now }
    ensures same { S.holds shelves.new ≡ S.holds shelves.old }
    ensures places { IfOk result (λ found. IfOk found (λ image. length image * PAGE_BLOCKS ≡ size / VOLUME_BLOCK)) }
    ensures told { IfOk result (λ found. Told (S.holds shelves.old) (λ files. IsPartRead (files shelf) size part.now found)) }
    ensures cause { HasOuterCause (S.faults shelves.old) (S.faults shelves.new) result }
{
    match read_image(
        alloc,
        size,
        &part.meta.name,
        part.spans.as_slice(),
        shelf,
        shelves,
    )? {
        Ok(image) => Ok(Ok(image)),
        Err(place) => Ok(Err(Damage {
            file: String::from_str(alloc, part.meta.name.as_str())?,
            place,
        })),
    }
}

/// The blocks that a map lists, read from the image; or the length that the image has, where a
/// block is not wholly there.
fn read_image<S: Shelves>(
    alloc: Global,
    size: VolumeSize,
    image: &ImageName,
    spans: &[BlockSpan],
    shelf: u8,
    shelves: &mut S,
) -> Outer<Result<Image, u64>>
    requires { AreSpans 0 (size / VOLUME_BLOCK) spans.now }
    ensures same { S.holds shelves.new ≡ S.holds shelves.old }
    ensures places { IfOk result (λ found. IfOk found (λ image. length image * PAGE_BLOCKS ≡ size / VOLUME_BLOCK)) }
    ensures told { IfOk result (λ found. Told (S.holds shelves.old)
        (λ files. IsImageRead (files shelf) size image.now spans.now found)) }
    ensures cause { HasOuterCause (S.faults shelves.old) (S.faults shelves.new) result }
{
    // What sizes there are, a proof learns here.
    let _bytes = size.bytes();
    let mut read = Image::with_pages(alloc, size.page_count())?;
    match read_runs(alloc, image.as_str(), spans, &mut read, shelf, shelves)? {
        None => Ok(Ok(read)),
        Some(stopped) => Ok(Err(short_length(size, image, stopped, shelf, shelves)?)),
    }
}

/// How long the image is, of which a read stopped there. Where it has the volume's length again,
/// that place.
fn short_length<S: Shelves>(
    size: VolumeSize,
    image: &ImageName,
    stopped: u64,
    shelf: u8,
    shelves: &mut S,
) -> Outer<u64>
    ensures same { S.holds shelves.new ≡ S.holds shelves.old }
    ensures told { IfOk result (λ place. Told (S.holds shelves.old) (λ files.
        (HasLength (files shelf) image.now size → ⊥) → HasOtherLength (files shelf) image.now size place)) }
    ensures cause { HasOuterCause (S.faults shelves.old) (S.faults shelves.new) result }
{
    match other_length(size.bytes(), image, shelf, shelves)? {
        Some(len) => Ok(len),
        None => Ok(stopped),
    }
}

/// Reads the blocks of all runs, as far as the file has them.
fn read_runs<S: Shelves>(
    alloc: Global,
    file: &str,
    spans: &[BlockSpan],
    into: &mut Image,
    shelf: u8,
    shelves: &mut S,
) -> Outer<Option<u64>>
    requires size { IsVolumeSize (length into.old * PAGE_BYTES) }
    requires spans { AreSpans 0 (length into.old * PAGE_BLOCKS) spans.now }
    ensures same { S.holds shelves.new ≡ S.holds shelves.old }
    ensures count { length into.new ≡ length into.old }
    ensures told { IfOk result (λ stopped. Told (S.holds shelves.old) (λ files.
        ReadsOrStops (files shelf) (length into.old * PAGE_BYTES) file.now (has_block spans.now) into.old into.new stopped)) }
    ensures cause { HasOuterCause (S.faults shelves.old) (S.faults shelves.new) result }
{
    for run in spans {
        match read_run(alloc, file, *run, into, shelf, shelves)? {
            None => {}
            Some(stopped) => return Ok(Some(stopped)),
        }
    }
    Ok(None)
}

/// Reads the blocks of a run, as far as the file has them.
fn read_run<S: Shelves>(
    alloc: Global,
    file: &str,
    run: BlockSpan,
    into: &mut Image,
    shelf: u8,
    shelves: &mut S,
) -> Outer<Option<u64>>
    requires size { IsVolumeSize (length into.old * PAGE_BYTES) }
    requires inside { run.first + run.count ≤ length into.old * PAGE_BLOCKS }
    ensures same { S.holds shelves.new ≡ S.holds shelves.old }
    ensures count { length into.new ≡ length into.old }
    ensures told { IfOk result (λ stopped. Told (S.holds shelves.old) (λ files.
        ReadsOrStops (files shelf) (length into.old * PAGE_BYTES) file.now (is_within run) into.old into.new stopped)) }
    ensures cause { HasOuterCause (S.faults shelves.old) (S.faults shelves.new) result }
{
    for block in run.first..run.first + run.count {
        match read_block(alloc, file, block, into, shelf, shelves)? {
            None => {}
            Some(stopped) => return Ok(Some(stopped)),
        }
    }
    Ok(None)
}

/// Reads one block, in a box of its own. Where it is not wholly there, the place where the file
/// ends.
fn read_block<S: Shelves>(
    alloc: Global,
    file: &str,
    block: u32,
    into: &mut Image,
    shelf: u8,
    shelves: &mut S,
) -> Outer<Option<u64>>
    requires { block < length into.old * PAGE_BLOCKS }
    ensures same { S.holds shelves.new ≡ S.holds shelves.old }
    ensures count { length into.new ≡ length into.old }
    ensures told { IfOk result (λ stopped. Told (S.holds shelves.old) (λ files.
        ReadsOrStops (files shelf) (length into.old * PAGE_BYTES) file.now (λ k. k == block) into.old into.new stopped)) }
    ensures cause { HasOuterCause (S.faults shelves.old) (S.faults shelves.new) result }
{
    into.ensure_page(alloc, block / PAGE_BLOCKS)?;
    let mut bytes = Box::new(alloc, [0; BLOCK_BYTES])?;
    let at = block as u64 * BLOCK_BYTES as u64;
    let count = shelves.read_at(shelf, file, at, &mut bytes[..])?;
    if count < BLOCK_BYTES {
        return Ok(Some(at + count as u64));
    }
    into.put(block, bytes);
    Ok(None)
}
