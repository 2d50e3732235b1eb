ghost use Rattle.std.specs.Prelude.{◌≡◌, ◌≤◌, IfOk, OnOk, Some, true};
ghost use Rattle.std.specs.Option.{option_map};
ghost use Rattle.serde_json.specs.Written.{compact_text};
ghost use Rattle.outer_traits.specs.Causes.{HasOuterCause};
ghost use Rattle.shelf_traits.specs.Failing.{FailsAt};
ghost use Rattle.shelf_traits.specs.Files.{Both, OthersStay, Becomes};
ghost use Rattle.chain_meta.specs.ImageNames.{snapshot_file};
ghost use Rattle.replica_node.specs.Places.{kept_at, IsPlace};
ghost use Rattle.folder_names.specs.Files.{meta_of, volume_file};
ghost use Rattle.replica_shelf.specs.Folder.{layer_meta_of, head_meta_of, meta_at, volume_meta_of};
ghost use Rattle.replica_shelf.specs.Saving.{stamps_of, IsMetaText, IsVolumeText};

use crate::file::put_file;
use crate::head::HeadMeta;
use crate::saving::SaveMeta;
use chain_meta::{DiskMeta, ImageName, VolumeMeta};
use folder_names::{VOLUME_FILE, layer_image, meta_file};
use replica_node::ReplicaNode;
use shelf_traits::{Outer, Shelves};
use std::alloc::{AllocError, Global};
use vol_units::{LayerName, TimeText};

/// Writes the metadata of an image.
pub(crate) fn put_meta<S: Shelves>(
    alloc: Global,
    meta: &DiskMeta,
    shelf: u8,
    shelves: &mut S,
) -> Outer<()>
    ensures ok { OnOk result (Both (S.holds shelves.old) (S.holds shelves.new)
        (λ old new. IsMetaText (new shelf) meta.now.name meta.now)) }
    ensures others { Both (S.holds shelves.old) (S.holds shelves.new) (OthersStay shelf (meta_of meta.now.name)) }
    ensures cause { HasOuterCause (S.faults shelves.old) (S.faults shelves.new) result }
{
    let text = meta.write(alloc)?;
    let file = meta_file(alloc, &meta.name)?;
    put_file(file.as_str(), text.as_slice(), shelf, shelves)
}

/// Writes the metadata of the volume, and all that was written to the shelf stays there.
pub(crate) fn put_volume<S: Shelves>(
    alloc: Global,
    meta: &VolumeMeta,
    shelf: u8,
    shelves: &mut S,
) -> Outer<()>
    ensures ok { OnOk result (Both (S.holds shelves.old) (S.holds shelves.new)
        (λ old new. IsVolumeText (new shelf) meta.now)) }
    ensures others { Both (S.holds shelves.old) (S.holds shelves.new) (OthersStay shelf volume_file) }
    ensures cause { HasOuterCause (S.faults shelves.old) (S.faults shelves.new) result }
    ensures fault { FailsAt shelf volume_file (S.failed_at shelves.old) (S.failed_at shelves.new) result }
{
    let text = meta.write(alloc)?;
    put_file(VOLUME_FILE, text.as_slice(), shelf, shelves)?;
    shelves.sync(shelf)
}

/// What is told of the layer at a place, or of the head where none is given.
pub(crate) fn disk_meta(
    alloc: Global,
    node: &ReplicaNode,
    place: Option<usize>,
    meta: &SaveMeta,
) -> Result<DiskMeta, AllocError>
    requires { IsPlace node.now place }
    ensures { IfOk result (λ told. told ≡ meta_at (stamps_of meta.now) node.now place) }
{
    match place {
        Some(place) => layer_meta(alloc, node, place, &meta.time),
        None => head_meta(alloc, node, &meta.head),
    }
}

fn head_meta(alloc: Global, node: &ReplicaNode, head: &HeadMeta) -> Result<DiskMeta, AllocError>
    ensures { IfOk result (λ meta. meta ≡ head_meta_of head.now node.now) }
{
    Ok(DiskMeta {
        created: same_time(alloc, &head.created)?,
        name: ImageName::head(alloc, node.head_number())?,
        parent: parent_image(alloc, &node.head_parent())?,
        removed: false,
        user_created: head.user_created,
    })
}

fn layer_meta(
    alloc: Global,
    node: &ReplicaNode,
    place: usize,
    now: &TimeText,
) -> Result<DiskMeta, AllocError>
    requires { IsPlace node.now (Some place) }
    ensures { IfOk result (λ meta. meta ≡ layer_meta_of now.now (kept_at node.now.layers place).meta) }
{
    let meta = node.meta(place);
    let created = match &meta.created {
        Some(time) => same_time(alloc, time)?,
        // This run made it.
        None => same_time(alloc, now)?,
    };
    Ok(DiskMeta {
        created,
        name: layer_image(alloc, &meta.name)?,
        parent: parent_image(alloc, &meta.parent)?,
        removed: meta.marked,
        user_created: meta.user_created,
    })
}

/// The image of a parent, if there is one.
fn parent_image(alloc: Global, parent: &Option<LayerName>) -> Result<Option<ImageName>, AllocError>
    ensures { IfOk result (λ image. image ≡ option_map snapshot_file parent.now) }
{
    match parent {
        Some(name) => Ok(Some(layer_image(alloc, name)?)),
        None => Ok(None),
    }
}

/// The same text once more.
pub(crate) fn same_time(alloc: Global, time: &TimeText) -> Result<TimeText, AllocError>
    ensures { IfOk result (λ same. same ≡ time.now) }
{
    match TimeText::read(alloc, time.as_str())? {
        Some(same) => Ok(same),
        None => unreachable!(),
    }
}

/// What is told of the volume of a replica, in ERR or not, while its folder is dirty.
pub(crate) fn dirty_volume(
    alloc: Global,
    node: &ReplicaNode,
    failed: bool,
) -> Result<VolumeMeta, AllocError>
    ensures { IfOk result (λ meta. meta ≡ volume_meta_of true failed node.now) }
{
    Ok(VolumeMeta {
        dirty: true,
        rebuilding: false,
        failed,
        head: node.head_number(),
        parent: parent_image(alloc, &node.head_parent())?,
        size: node.size() as u64,
    })
}
