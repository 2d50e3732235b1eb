ghost use Rattle.std.specs.Prelude.{◌≡◌, IfOk};
ghost use Rattle.layer_chain.specs.Tree.{marked_chain};

use crate::layer::Layer;
use crate::reading::is_wanted;
use std::alloc::{AllocError, Global};
use vol_units::LayerName;

/// The names of the named layer, of its parent, and so on down, each with its mark, in one pass.
pub(crate) fn chain_in(
    alloc: Global,
    layers: &[Layer],
    name: Option<LayerName>,
) -> Result<Vec<(LayerName, bool)>, AllocError>
    ensures { IfOk result (λ chain. chain.items ≡ marked_chain layers.now name) }
{
    let mut chain = Vec::with_capacity(alloc, layers.len())?;
    let mut wanted = name;
    for place in 0..layers.len() {
        let layer = &layers[place];
        if is_wanted(&wanted, &layer.meta.name) {
            chain.push((layer.meta.name, layer.meta.marked))?;
            wanted = layer.meta.parent;
        }
    }
    Ok(chain)
}
