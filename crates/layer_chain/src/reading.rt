ghost use Rattle.std.specs.Prelude.{◌≡◌, ℕ, ◌<◌, List, length, None, Some, MatchOption, IfSome};
ghost use Rattle.std.specs.Option.{option_copied};
ghost use Rattle.std.specs.Str.{bytes_eq};
ghost use Rattle.vol_units.specs.Chain.{is_named};
ghost use Rattle.layer_chain.specs.Tree.{reads, name_of, layer_at, IsNew, IsAt};

use crate::layer::Layer;
use sparse_image::{BLOCK_BYTES, Block};
use vol_units::LayerName;

pub(crate) fn is_named(layer: &Layer, name: &LayerName) -> bool
    ensures { result ≡ bytes_eq name.now (name_of layer.now) }
{
    name.as_bytes() == layer.meta.name.as_bytes()
}

/// Whether that name is wanted.
pub(crate) fn is_wanted(wanted: &Option<LayerName>, name: &LayerName) -> bool
    ensures { result ≡ is_named wanted.now name.now }
{
    match wanted {
        Some(wanted) => wanted.as_bytes() == name.as_bytes(),
        None => false,
    }
}

/// What the named layer reads as at a block, in one pass from the newest layer to the oldest.
pub(crate) fn read_in<'n, 'a: 'n>(
    layers: &'a [Layer],
    name: &'n LayerName,
    block: u32,
) -> Option<&'a Block>
    ensures value { option_copied result ≡ reads layers.now (Some name.now) block }
    ensures whole { IfSome result (λ b. length b.now ≡ BLOCK_BYTES) }
{
    let mut want = name;
    for layer in layers {
        if is_named(layer, want) {
            if let Some(found) = layer.image.get(block) {
                return Some(found);
            }
            match &layer.meta.parent {
                Some(parent) => want = parent,
                None => return None,
            }
        }
    }
    None
}

pub(crate) fn index_in(layers: &[Layer], name: &LayerName) -> Option<usize>
    ensures { MatchOption result (IsNew name.now layers.now) (λ p. IsAt layers.now name.now p) }
{
    for place in 0..layers.len() {
        if is_named(&layers[place], name) {
            return Some(place);
        }
    }
    None
}
