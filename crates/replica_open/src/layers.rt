ghost use Rattle.std.specs.Prelude.{◌≡◌, ◌/◌, length, All, IfOk};
ghost use Rattle.vol_units.specs.declared.size.TheConstants.{BLOCK_BYTES as VOLUME_BLOCK};
ghost use Rattle.outer_traits.specs.Causes.{HasOuterCause};
ghost use Rattle.folder_checks.specs.Told.{Told};
ghost use Rattle.folder_checks.specs.Checks.{IsMapped};
ghost use Rattle.replica_open.specs.Building.{CanBePushed, HasLayers, AreLayersRead};

use crate::image::read_part;
use folder_checks::{Damage, ImageParts};
use folder_layers::OrderedLayer;
use layer_chain::{Layer, LayerTree};
use shelf_traits::{Outer, Shelves};
use std::alloc::Global;
use vol_units::VolumeSize;

/// The layers, each with the image of its snapshot, below a head of zeros. Or how the first image
/// is damaged that fell short.
pub(crate) fn read_layers<S: Shelves>(
    alloc: Global,
    size: VolumeSize,
    snapshots: &[ImageParts],
    layers: Vec<OrderedLayer>,
    shelf: u8,
    shelves: &mut S,
) -> Outer<Result<LayerTree, Damage>>
    requires mapped { All (IsMapped (size / VOLUME_BLOCK)) snapshots.now }
    requires layers { CanBePushed (length snapshots.now) layers.items }
    ensures same { S.holds shelves.new ≡ S.holds shelves.old }
    ensures layers { IfOk result (λ found. IfOk found (HasLayers (size / VOLUME_BLOCK) layers.items)) }
    ensures told { IfOk result (λ found. Told (S.holds shelves.old)
        (λ files. AreLayersRead (files shelf) size snapshots.now layers.items found)) }
    ensures cause { HasOuterCause (S.faults shelves.old) (S.faults shelves.new) result }
{
    let mut tree = LayerTree::new(alloc, size.page_count())?;
    for layer in layers {
        let OrderedLayer { place, meta } = layer;
        match read_part(alloc, size, &snapshots[place], shelf, shelves)? {
            Ok(image) => tree.push_layer(Layer { meta, image }),
            Err(damage) => return Ok(Err(damage)),
        }
    }
    Ok(Ok(tree))
}
