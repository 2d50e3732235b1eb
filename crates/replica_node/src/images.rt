ghost use Rattle.std.specs.Prelude.{All};
ghost use Rattle.sparse_image.specs.Whole.{IsImage};
ghost use Rattle.layer_chain.specs.declared.layer.Layer.{Layer};

use layer_chain::LayerTree;

/// Tells a proof, which sees the images of a tree without their type, what every image keeps.
pub(crate) fn learn_images(tree: &LayerTree)
    ensures head { IsImage tree.now.head }
    ensures layers { All (λ (l : Layer). IsImage l.image) tree.now.layers }
{
    let _pages = tree.head_image().page_count();
    for place in 0..tree.count() - 1 {
        let _pages = tree.image(place).page_count();
    }
}
