ghost use Rattle.std.specs.Prelude.{◌≡◌, ℕ, ◌+◌, ◌<◌, ◌∷◌, length, All, get_or, slice_set, []};
ghost use Rattle.layer_chain.specs.Found.{IsKnown, images_of, found_in};

use crate::layer::Layer;
use crate::read_index::ReadIndex;
use sparse_image::Image;

/// The blocks of the head, or of the layer of its chain that so many are above, the head among them.
pub(crate) fn image_below<'a>(
    head: &'a Image,
    layers: &'a [Layer],
    index: &ReadIndex,
    above: usize,
) -> &'a Image
    requires ages { All (λ age. age < length layers.now) index.now.ages }
    requires within { above < length index.now.ages + 1 }
    ensures { result.now ≡ get_or (head.now ∷ images_of layers.now index.now.ages) above [] }
{
    if above == 0 {
        return head;
    }
    &layers[layers.len() - 1 - index.age(above - 1)].image
}

/// The index of the first of the head and the layers below it that has the block, and 0 where none has.
fn search(head: &Image, layers: &[Layer], index: &ReadIndex, block: u32) -> u8
    requires ages { All (λ age. age < length layers.now) index.now.ages }
    ensures { result ≡ found_in (head.now ∷ images_of layers.now index.now.ages) block }
{
    let count = index.layer_count() + 1;
    for above in 0..count {
        if image_below(head, layers, index, above).present(block) {
            return (count - above) as u8;
        }
    }
    0
}

/// The same, which the index says without a search from then on.
pub(crate) fn locate_in(head: &Image, layers: &[Layer], index: &mut ReadIndex, block: u32) -> u8
    requires ages { All (λ age. age < length layers.now) index.old.ages }
    requires known { IsKnown (head.now ∷ images_of layers.now index.old.ages) index.old.bytes }
    ensures found { result ≡ found_in (head.now ∷ images_of layers.now index.old.ages) block }
    ensures learned { index.new ≡ record index.old { bytes = slice_set index.old.bytes block result } }
{
    let known = index.find(block);
    if known > 0 {
        return known;
    }
    let found = search(head, layers, index, block);
    // A block that no layer has touches no memory.
    if found > 0 {
        index.learn(block, found);
    }
    found
}
