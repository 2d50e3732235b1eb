ghost use Rattle.std.specs.Prelude.{◌≡◌, IfOk, string_bytes};
ghost use Rattle.chain_meta.specs.ImageNames.{snapshot_file};
ghost use Rattle.folder_names.specs.Files.{meta_of, map_of};

use chain_meta::ImageName;
use std::alloc::{AllocError, Global};
use vol_units::LayerName;

/// The metadata of the volume.
pub const VOLUME_FILE: &str = "volume.meta";

/// The file of the metadata of an image.
pub fn meta_file(alloc: Global, image: &ImageName) -> Result<String, AllocError>
    ensures { IfOk result (λ file. string_bytes file ≡ meta_of image.now) }
{
    let mut file = String::from_str(alloc, image.as_str())?;
    file.push_str(".meta")?;
    Ok(file)
}

/// The file of the map of an image.
pub fn map_file(alloc: Global, image: &ImageName) -> Result<String, AllocError>
    ensures { IfOk result (λ file. string_bytes file ≡ map_of image.now) }
{
    let mut file = String::from_str(alloc, image.as_str())?;
    file.push_str(".map")?;
    Ok(file)
}

/// The image of the layer of a name.
pub fn layer_image(alloc: Global, name: &LayerName) -> Result<ImageName, AllocError>
    ensures { IfOk result (λ image. image ≡ snapshot_file name.now) }
{
    // What names layers have, a proof learns here.
    let _bytes = name.as_bytes();
    ImageName::snapshot(alloc, name.as_str())
}
