ghost use Rattle.std.specs.Prelude.{◌≡◌, ◌↔◌, ◌++◌, ℕ, List, IfOk, IsTrue};
ghost use Rattle.chain_meta.specs.ImageNames.{IsImageName};
ghost use Rattle.folder_names.specs.Files.{IsOfAnImage};
ghost use Rattle.replica_node.specs.Places.{IsPlace};
ghost use Rattle.replica_shelf.specs.Folder.{image_at};

use chain_meta::{ImageName, before, is_image};
use folder_names::layer_image;
use replica_node::ReplicaNode;
use std::alloc::{AllocError, Global};

/// The image of the layer at a place, or of the head where none is given.
pub(crate) fn image_name(
    alloc: Global,
    node: &ReplicaNode,
    place: Option<usize>,
) -> Result<ImageName, AllocError>
    requires { IsPlace node.now place }
    ensures { IfOk result (λ image. image ≡ image_at node.now place) }
{
    match place {
        Some(place) => layer_image(alloc, &node.meta(place).name),
        None => ImageName::head(alloc, node.head_number()),
    }
}

/// Whether a file is one of some image.
#[tactic(auto, using(folder_names::proofs::NameLemmas::of_image, folder_names::proofs::NameLemmas::of_map, folder_names::proofs::NameLemmas::of_meta, folder_names::proofs::NameLemmas::only_meta))]
pub(crate) fn is_of_an_image(file: &[u8]) -> bool
    ensures { IsTrue result ↔ IsOfAnImage file.now }
{
    if is_image(file) {
        return true;
    }
    if is_image_before(file, b".map") {
        return true;
    }
    is_image_before(file, b".meta")
}

/// Whether a file is an image's name with that behind it.
#[tactic(auto, using(folder_names::proofs::NameLemmas::one_front))]
fn is_image_before(file: &[u8], back: &[u8]) -> bool
    ensures { IsTrue result ↔ ((image : List ℕ) × IsImageName image × (file.now ≡ image ++ back.now)) }
{
    match before(file, back) {
        Some(image) => is_image(image),
        None => false,
    }
}
