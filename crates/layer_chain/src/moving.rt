ghost use Rattle.std.specs.Prelude.{◌≡◌, ◌<◌, length};
ghost use Rattle.layer_chain.specs.Tree.{layer_at};
ghost use Rattle.layer_chain.specs.Changes.{MovesPage};

use crate::layer::Layer;

/// Moves the blocks of a page of a layer onto an older one, over its own.
pub(crate) fn move_page_in(layers: &mut [Layer], parent: usize, child: usize, page: u32)
    requires within { parent < length layers.old }
    requires older { child < parent }
    requires own { page < length (layer_at layers.old child).image }
    requires under { page < length (layer_at layers.old parent).image }
    ensures len { length layers.new ≡ length layers.old }
    ensures moves { MovesPage layers.old layers.new parent child page }
{
    let (newer, older) = layers.split_at_mut(parent);
    newer[child].image.move_page_onto(page, &mut older[0].image);
}
