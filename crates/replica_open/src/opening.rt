ghost use Rattle.std.specs.Prelude.{◌≡◌, IfOk, map, string_bytes};
ghost use Rattle.outer_traits.specs.Causes.{HasOuterCause};
ghost use Rattle.chain_meta.specs.ImageNames.{head_file};
ghost use Rattle.folder_names.specs.Files.{meta_of};
ghost use Rattle.folder_checks.specs.Told.{Told};
ghost use Rattle.folder_checks.specs.Checks.{AreKnown, AreGoodParts};
ghost use Rattle.folder_checks.specs.Snapshots.{AreSnapshotMetas, metas_of};
ghost use Rattle.folder_layers.specs.Layers.{AreFit, IsMisfit};
ghost use Rattle.folder_layers.specs.Folders.{misfit_file};
ghost use Rattle.replica_open.specs.Opening.{IsDamageOf, AnswersOpen, IsKnownOpened};

use crate::replica::read_replica;
use folder_checks::{Damage, Flag, FolderCheck, FolderParts, ImageParts, check_folder};
use folder_layers::{Misfit, first_misfit, order_layers, parent_name};
use folder_names::meta_file;
use replica_node::ReplicaNode;
use replica_shelf::HeadMeta;
use shelf_traits::{Outer, Shelves};
use std::alloc::{AllocError, Global};
use vol_units::VolumeSize;

/// What a folder is found to be.
#[derive(Drop)]
pub enum Opened {
    /// The replica that it is, and what is told of its head.
    Clean(ReplicaNode, HeadMeta),
    /// It was left dirty, or while it was rebuilt, or in ERR, or it is of a volume of another size.
    Unclean(Flag),
    /// The first file that is damaged, and where.
    Damaged(Damage),
}

/// Opens the folder of a replica of a volume of that size. Nothing is changed.
pub fn open<S: Shelves>(
    alloc: Global,
    size: VolumeSize,
    shelf: u8,
    shelves: &mut S,
) -> Outer<Opened>
    ensures same { S.holds shelves.new ≡ S.holds shelves.old }
    ensures told { IfOk result (λ opened. Told (S.holds shelves.old) (λ files. AnswersOpen (files shelf) size opened)) }
    ensures known { IfOk result (IsKnownOpened size) }
    ensures cause { HasOuterCause (S.faults shelves.old) (S.faults shelves.new) result }
{
    match check_folder(alloc, size, shelf, shelves)? {
        FolderCheck::Unclean(flag) => Ok(Opened::Unclean(flag)),
        FolderCheck::Damaged(damage) => Ok(Opened::Damaged(damage)),
        FolderCheck::Whole(parts) => open_parts(alloc, size, parts, shelf, shelves),
    }
}

/// The same, where each file was found good by itself.
fn open_parts<S: Shelves>(
    alloc: Global,
    size: VolumeSize,
    parts: FolderParts,
    shelf: u8,
    shelves: &mut S,
) -> Outer<Opened>
    requires { AreKnown size parts }
    ensures same { S.holds shelves.new ≡ S.holds shelves.old }
    ensures told { IfOk result (λ opened. Told (S.holds shelves.old)
        (λ files. AreGoodParts (files shelf) size parts → AnswersOpen (files shelf) size opened)) }
    ensures known { IfOk result (IsKnownOpened size) }
    ensures cause { HasOuterCause (S.faults shelves.old) (S.faults shelves.new) result }
{
    let (number, head) = (parts.volume.head, &parts.head.meta);
    let found = first_misfit(
        alloc,
        number,
        head,
        parts.names.as_slice(),
        parts.snapshots.as_slice(),
    )?;
    match found {
        Some(misfit) => Ok(Opened::Damaged(misfit_damage(alloc, &parts, misfit)?)),
        None => open_layers(alloc, size, parts, shelf, shelves),
    }
}

/// The same, where the layers fit together too.
fn open_layers<S: Shelves>(
    alloc: Global,
    size: VolumeSize,
    parts: FolderParts,
    shelf: u8,
    shelves: &mut S,
) -> Outer<Opened>
    requires known { AreKnown size parts }
    requires fit { AreFit parts.volume.head parts.head.meta (map string_bytes parts.names.items) (metas_of parts.snapshots.items) }
    ensures same { S.holds shelves.new ≡ S.holds shelves.old }
    ensures told { IfOk result (λ opened. Told (S.holds shelves.old)
        (λ files. AreGoodParts (files shelf) size parts → AnswersOpen (files shelf) size opened)) }
    ensures known { IfOk result (IsKnownOpened size) }
    ensures cause { HasOuterCause (S.faults shelves.old) (S.faults shelves.new) result }
{
    let (names, snapshots) = (parts.names.as_slice(), parts.snapshots.as_slice());
    let layers = order_layers(alloc, names, snapshots)?;
    let on = parent_name(names, snapshots, &parts.head.meta);
    match read_replica(alloc, size, &parts, layers, on, shelf, shelves)? {
        Ok(node) => Ok(Opened::Clean(node, head_of(parts.head))),
        Err(damage) => Ok(Opened::Damaged(damage)),
    }
}

/// What the parts of its image tell of the head.
fn head_of(head: ImageParts) -> HeadMeta
    ensures { result ≡ record { created = head.meta.created; user_created = head.meta.user_created } }
{
    let meta = head.meta;
    HeadMeta {
        created: meta.created,
        user_created: meta.user_created,
    }
}

/// The metadata of a layer that cannot stand where it is.
fn misfit_damage(alloc: Global, parts: &FolderParts, misfit: Misfit) -> Result<Damage, AllocError>
    requires head { parts.now.head.meta.name ≡ head_file parts.now.volume.head }
    requires listed { AreSnapshotMetas (map string_bytes parts.now.names.items) (metas_of parts.now.snapshots.items) }
    requires misfit { IsMisfit parts.now.volume.head parts.now.head.meta (map string_bytes parts.now.names.items)
        (metas_of parts.now.snapshots.items) misfit }
    ensures { IfOk result (IsDamageOf (misfit_file parts.now.volume.head (map string_bytes parts.now.names.items) misfit)) }
{
    match misfit {
        Misfit::Head => meta_damage(alloc, &parts.head),
        Misfit::Snapshot(place) => meta_damage(alloc, &parts.snapshots[place]),
    }
}

/// The metadata of an image as damaged.
fn meta_damage(alloc: Global, image: &ImageParts) -> Result<Damage, AllocError>
    ensures { IfOk result (IsDamageOf (meta_of image.now.meta.name)) }
{
    Ok(Damage {
        file: meta_file(alloc, &image.meta.name)?,
        place: 0,
    })
}
