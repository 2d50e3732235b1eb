ghost use Rattle.std.specs.Prelude.{◌≡◌, ◌<◌, length, map, IfOk, IfSome, Contains, option_map, string_bytes};
ghost use Rattle.vol_units.specs.Name.{IsLayerName};
ghost use Rattle.chain_meta.specs.ImageNames.{snapshot_file};
ghost use Rattle.folder_checks.specs.Snapshots.{AreSnapshotMetas, metas_of};
ghost use Rattle.folder_layers.specs.Layers.{StandsOnOne};
ghost use Rattle.folder_layers.specs.Ordered.{CanBeLayers, IsSnapshotAt, AreOrdered};

use crate::parents::parents_of;
use crate::turns::places_in_turn;
use chain_meta::{DiskMeta, snapshot_name};
use folder_checks::ImageParts;
use layer_chain::LayerMeta;
use std::alloc::{AllocError, Global};
use vol_units::{LayerName, TimeText};

/// A snapshot as a layer: its place among the snapshots, and what is told of it.
#[derive(Drop)]
pub struct OrderedLayer {
    pub place: usize,
    pub meta: LayerMeta,
}

/// The snapshots as layers, the oldest first: each is, in byte order of names, the first of those
/// left whose parent is there.
pub fn order_layers(
    alloc: Global,
    names: &[String],
    snapshots: &[ImageParts],
) -> Result<Vec<OrderedLayer>, AllocError>
    requires listed { AreSnapshotMetas (map string_bytes names.now) (metas_of snapshots.now) }
    requires fit { CanBeLayers (map string_bytes names.now) (metas_of snapshots.now) }
    ensures { IfOk result (λ layers. AreOrdered (map string_bytes names.now) (metas_of snapshots.now) layers.items) }
{
    let parents = parents_of(alloc, names, snapshots)?;
    let places = places_in_turn(alloc, &parents)?;
    let mut layers = Vec::new(alloc);
    for place in &places {
        let layer = layer_at(alloc, names, snapshots, *place)?;
        layers.push(layer)?;
    }
    Ok(layers)
}

/// The layer that the snapshot at a place is.
fn layer_at(
    alloc: Global,
    names: &[String],
    snapshots: &[ImageParts],
    place: usize,
) -> Result<OrderedLayer, AllocError>
    requires listed { AreSnapshotMetas (map string_bytes names.now) (metas_of snapshots.now) }
    requires fit { CanBeLayers (map string_bytes names.now) (metas_of snapshots.now) }
    requires within { place < length snapshots.now }
    ensures place { IfOk result (λ layer. layer.place ≡ place) }
    ensures snapshot { IfOk result (IsSnapshotAt (map string_bytes names.now) (metas_of snapshots.now)) }
{
    let meta = &snapshots[place].meta;
    let created = same_time(alloc, &meta.created)?;
    Ok(OrderedLayer {
        place,
        meta: LayerMeta {
            name: layer_name(names[place].as_bytes()),
            parent: parent_name(names, snapshots, meta),
            marked: meta.removed,
            user_created: meta.user_created,
            created: Some(created),
        },
    })
}

/// The layer's name of the snapshot on which a layer stands, where it stands on one. The parent's
/// file tells it; the names and the snapshots are there for the contract alone.
pub fn parent_name(
    names: &[String],
    snapshots: &[ImageParts],
    layer: &DiskMeta,
) -> Option<LayerName>
    requires listed { AreSnapshotMetas (map string_bytes names.now) (metas_of snapshots.now) }
    requires fit { CanBeLayers (map string_bytes names.now) (metas_of snapshots.now) }
    requires stands { StandsOnOne (metas_of snapshots.now) layer.now }
    ensures file { option_map snapshot_file result ≡ layer.now.parent }
    ensures named { IfSome result (Contains (map string_bytes names.now)) }
{
    let Some(image) = &layer.parent else {
        return None;
    };
    match snapshot_name(image.as_str().as_bytes()) {
        Some(name) => Some(layer_name(name)),
        None => unreachable!(),
    }
}

fn layer_name(name: &[u8]) -> LayerName
    requires { IsLayerName name.now }
    ensures { result ≡ name.now }
{
    match LayerName::read(name) {
        Ok(layer) => layer,
        Err(_) => unreachable!(),
    }
}

/// The same text once more.
fn same_time(alloc: Global, time: &TimeText) -> Result<TimeText, AllocError>
    ensures { IfOk result (λ copy. copy ≡ time.now) }
{
    match TimeText::read(alloc, time.as_str())? {
        Some(copy) => Ok(copy),
        None => unreachable!(),
    }
}
