ghost use Rattle.std.specs.Prelude.{◌≡◌, ◌≤◌, IfOk, IfSome, MatchOption};
ghost use Rattle.outer_traits.specs.Causes.{HasOuterCause};
ghost use Rattle.chain_meta.specs.Kinds.{largest_head};
ghost use Rattle.chain_meta.specs.DiskMetas.{SaysDisk};
ghost use Rattle.chain_meta.specs.VolumeMetas.{SaysVolume};
ghost use Rattle.folder_names.specs.Files.{volume_file};
ghost use Rattle.folder_checks.specs.Told.{Told, IsSaid, IsToldAlone};
ghost use Rattle.folder_checks.specs.Checks.{IsFlagged, IsUnflagged};

use crate::file::read_short;
use crate::parts::Flag;
use chain_meta::{DiskMeta, MetaError, VolumeMeta};
use folder_names::VOLUME_FILE;
use shelf_traits::{Outer, Shelves};
use std::alloc::{AllocError, Global};

/// The most bytes of a file of metadata.
const META_LIMIT: u64 = 1_048_576;

/// What the metadata of the volume says, or none where it is damaged.
pub fn read_volume<S: Shelves>(
    alloc: Global,
    shelf: u8,
    shelves: &mut S,
) -> Outer<Option<VolumeMeta>>
    ensures same { S.holds shelves.new ≡ S.holds shelves.old }
    ensures told { IfOk result (λ found. Told (S.holds shelves.old)
        (λ files. IsToldAlone (files shelf) volume_file SaysVolume found)) }
    ensures known { IfOk result (λ found. IfSome found (λ volume. volume.head ≤ largest_head)) }
    ensures cause { HasOuterCause (S.faults shelves.old) (S.faults shelves.new) result }
{
    match read_short(alloc, META_LIMIT, VOLUME_FILE, shelf, shelves)? {
        None => Ok(None),
        Some(text) => Ok(volume_in(alloc, text.as_slice())?),
    }
}

/// What bytes say of a volume, or none.
fn volume_in(alloc: Global, text: &[u8]) -> Result<Option<VolumeMeta>, AllocError>
    ensures said { IfOk result (IsSaid SaysVolume text.now) }
    ensures known { IfOk result (λ found. IfSome found (λ volume. volume.head ≤ largest_head)) }
{
    match VolumeMeta::read(alloc, text) {
        Ok(meta) => Ok(Some(meta)),
        Err(MetaError::NoMemory) => Err(AllocError),
        Err(MetaError::Syntax) => Ok(None),
        Err(MetaError::Missing(_)) => Ok(None),
        Err(MetaError::Backing) => Ok(None),
    }
}

/// What makes the folder of that metadata unclean, or none.
pub fn flag_of(size: u64, volume: &VolumeMeta) -> Option<Flag>
    ensures { MatchOption result (IsUnflagged size volume.now) (IsFlagged size volume.now) }
{
    if volume.dirty {
        return Some(Flag::Dirty);
    }
    if volume.rebuilding {
        return Some(Flag::Rebuilding);
    }
    if volume.failed {
        return Some(Flag::Error);
    }
    if volume.size != size {
        return Some(Flag::Size);
    }
    None
}

/// What a file of metadata says of an image, or none where it is damaged.
pub fn read_disk<S: Shelves>(
    alloc: Global,
    file: &str,
    shelf: u8,
    shelves: &mut S,
) -> Outer<Option<DiskMeta>>
    ensures same { S.holds shelves.new ≡ S.holds shelves.old }
    ensures told { IfOk result (λ found. Told (S.holds shelves.old)
        (λ files. IsToldAlone (files shelf) file.now SaysDisk found)) }
    ensures cause { HasOuterCause (S.faults shelves.old) (S.faults shelves.new) result }
{
    match read_short(alloc, META_LIMIT, file, shelf, shelves)? {
        None => Ok(None),
        Some(text) => Ok(disk_in(alloc, text.as_slice())?),
    }
}

/// What bytes say of an image, or none.
fn disk_in(alloc: Global, text: &[u8]) -> Result<Option<DiskMeta>, AllocError>
    ensures { IfOk result (λ found. IsSaid SaysDisk text.now found) }
{
    match DiskMeta::read(alloc, text) {
        Ok(meta) => Ok(Some(meta)),
        Err(MetaError::NoMemory) => Err(AllocError),
        Err(MetaError::Syntax) => Ok(None),
        Err(MetaError::Missing(_)) => Ok(None),
        Err(MetaError::Backing) => Ok(None),
    }
}
