ghost use Rattle.std.specs.Prelude.{◌≡◌, ◌/◌, ℕ, List, IfOk, MatchResult, None, map, length, string_bytes, Contains};
ghost use Rattle.outer_traits.specs.Causes.{HasOuterCause};
ghost use Rattle.vol_units.specs.Name.{IsName};
ghost use Rattle.vol_units.specs.declared.size.TheConstants.{BLOCK_BYTES};
ghost use Rattle.chain_meta.specs.ImageNames.{snapshot_file};
ghost use Rattle.chain_meta.specs.VolumeMetas.{SaysVolume};
ghost use Rattle.folder_names.specs.Files.{volume_file};
ghost use Rattle.folder_checks.specs.Told.{Told, FileTells};
ghost use Rattle.folder_checks.specs.Images.{IsImageCheck};
ghost use Rattle.folder_checks.specs.Checks.{AreGood, HasBadSnapshot, IsFolderCheck, IsKnown};
ghost use Rattle.folder_checks.specs.Finding.{IsGiven, IsKnownImage, AreKnownImages};

use crate::images::image_check;
use crate::listing::snapshot_names;
use crate::metas::{flag_of, read_volume};
use crate::parts::{Damage, FolderCheck, FolderParts, ImageCheck, ImageParts};
use chain_meta::{ImageName, VolumeMeta};
use folder_names::VOLUME_FILE;
use shelf_traits::{Outer, Shelves};
use std::alloc::Global;
use vol_units::VolumeSize;

/// Looks at each file of a folder by itself: the metadata of the volume, then the head and each
/// snapshot in byte order of names, each with its metadata, its map and its length, up to the first
/// that is not good.
pub fn check_folder<S: Shelves>(
    alloc: Global,
    size: VolumeSize,
    shelf: u8,
    shelves: &mut S,
) -> Outer<FolderCheck>
    ensures same { S.holds shelves.new ≡ S.holds shelves.old }
    ensures told { IfOk result (λ found. Told (S.holds shelves.old)
        (λ files. IsFolderCheck (files shelf) size found)) }

    // Whether or not shelves tell what they hold.
    ensures known { IfOk result (IsKnown size) }
    ensures cause { HasOuterCause (S.faults shelves.old) (S.faults shelves.new) result }
{
    check_files(alloc, size.bytes(), size.block_count(), shelf, shelves)
}

/// The same, of a volume of so many bytes and blocks.
fn check_files<S: Shelves>(
    alloc: Global,
    size: u64,
    block_count: u32,
    shelf: u8,
    shelves: &mut S,
) -> Outer<FolderCheck>
    requires { block_count ≡ size / BLOCK_BYTES }
    ensures same { S.holds shelves.new ≡ S.holds shelves.old }
    ensures told { IfOk result (λ found. Told (S.holds shelves.old)
        (λ files. IsFolderCheck (files shelf) size found)) }
    ensures known { IfOk result (IsKnown size) }
    ensures cause { HasOuterCause (S.faults shelves.old) (S.faults shelves.new) result }
{
    let volume = match read_volume(alloc, shelf, shelves)? {
        None => {
            let file = String::from_str(alloc, VOLUME_FILE)?;
            return Ok(FolderCheck::Damaged(Damage { file, place: 0 }));
        }
        Some(volume) => volume,
    };
    if let Some(flag) = flag_of(size, &volume) {
        return Ok(FolderCheck::Unclean(flag));
    }
    check_images(alloc, size, block_count, volume, shelf, shelves)
}

/// The same, where nothing makes the folder unclean.
fn check_images<S: Shelves>(
    alloc: Global,
    size: u64,
    block_count: u32,
    volume: VolumeMeta,
    shelf: u8,
    shelves: &mut S,
) -> Outer<FolderCheck>
    requires given { IsGiven size block_count volume }
    requires told { Told (S.holds shelves.old) (λ files. FileTells (files shelf) volume_file SaysVolume volume) }
    ensures same { S.holds shelves.new ≡ S.holds shelves.old }
    ensures told { IfOk result (λ found. Told (S.holds shelves.old)
        (λ files. IsFolderCheck (files shelf) size found)) }
    ensures known { IfOk result (IsKnown size) }
    ensures cause { HasOuterCause (S.faults shelves.old) (S.faults shelves.new) result }
{
    let image = ImageName::head(alloc, volume.head)?;
    let head = match image_check(
        alloc,
        size,
        block_count,
        &image,
        Some(&volume),
        shelf,
        shelves,
    )? {
        ImageCheck::Good(parts) => parts,
        ImageCheck::Bad(damage) => return Ok(FolderCheck::Damaged(damage)),
    };
    let names = snapshot_names(alloc, shelf, shelves)?;
    match check_snapshots(alloc, size, block_count, names.as_slice(), shelf, shelves)? {
        Err(damage) => Ok(FolderCheck::Damaged(damage)),
        Ok(snapshots) => Ok(FolderCheck::Whole(FolderParts {
            volume,
            head,
            names,
            snapshots,
        })),
    }
}

/// Looks at the images of the snapshots of these names in turn, up to the first that is damaged.
fn check_snapshots<S: Shelves>(
    alloc: Global,
    size: u64,
    block_count: u32,
    names: &[String],
    shelf: u8,
    shelves: &mut S,
) -> Outer<Result<Vec<ImageParts>, Damage>>
    requires { (name : List ℕ) → Contains (map string_bytes names.now) name → IsName name }
    ensures same { S.holds shelves.new ≡ S.holds shelves.old }
    ensures told { IfOk result (λ found. Told (S.holds shelves.old) (λ files. MatchResult found
        (λ parts. AreGood (files shelf) size block_count (map string_bytes names.now) (length names.now) parts.items)
        (λ damage. HasBadSnapshot (files shelf) size block_count (map string_bytes names.now)
        (string_bytes damage.file) damage.place))) }
    ensures known { IfOk result (λ found. IfOk found (λ parts.
        AreKnownImages block_count (map string_bytes names.now) (length names.now) parts.items)) }
    ensures cause { HasOuterCause (S.faults shelves.old) (S.faults shelves.new) result }
{
    let mut all = Vec::new(alloc);
    for place in 0..names.len() {
        let name = names[place].as_str();
        match snapshot_check(alloc, size, block_count, name, shelf, shelves)? {
            ImageCheck::Good(parts) => all.push(parts)?,
            ImageCheck::Bad(damage) => return Ok(Err(damage)),
        }
    }
    Ok(Ok(all))
}

/// Looks at the image of the snapshot of a name.
fn snapshot_check<S: Shelves>(
    alloc: Global,
    size: u64,
    block_count: u32,
    name: &str,
    shelf: u8,
    shelves: &mut S,
) -> Outer<ImageCheck>
    requires { IsName name.now }
    ensures same { S.holds shelves.new ≡ S.holds shelves.old }
    ensures told { IfOk result (λ found. Told (S.holds shelves.old)
        (λ files. IsImageCheck (files shelf) size block_count (snapshot_file name.now) None found)) }
    ensures known { IfOk result (IsKnownImage block_count (snapshot_file name.now) None) }
    ensures cause { HasOuterCause (S.faults shelves.old) (S.faults shelves.new) result }
{
    let image = ImageName::snapshot(alloc, name)?;
    image_check(alloc, size, block_count, &image, None, shelf, shelves)
}
