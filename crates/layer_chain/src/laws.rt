//! What follows from the definitions alone. Each law is a contract.

ghost use Rattle.std.specs.Prelude.{◌≡◌, ◌≢◌, ◌<◌, ℕ, Bool, true, false, List, [], ◌∷◌, length, Option, None, Some};
ghost use Rattle.std.specs.Option.{option_or};
ghost use Rattle.sparse_image.specs.Image.{Tables, block_at};
ghost use Rattle.layer_chain.specs.Changes.{KeepsReadings, marked_at, pushed, reverted_tree, snapped_tree};
ghost use Rattle.layer_chain.specs.Found.{first_true};
ghost use Rattle.layer_chain.specs.Tree.{IsAt, IsLayers, Tree, head_reads, name_of, parent_of, reads};
ghost use Rattle.layer_chain.specs.declared.layer.Layer.{Layer};

/// A name stands at one place.
pub fn a_name_has_one_place()
    ensures { (layers : List Layer) (name : List ℕ) (p q : ℕ)
        → IsLayers layers → IsAt layers name p → IsAt layers name q → p ≡ q }
{}

/// A layer that is pushed reads as its own blocks, over what its parent reads as.
pub fn a_pushed_layer_reads_over_its_parent()
    ensures { (t : Tree) (layer : Layer) (block : ℕ)
        → reads (pushed t layer).layers (Some (name_of layer)) block
        ≡ option_or (block_at layer.image block) (reads t.layers (parent_of layer) block) }
{}

/// Each other layer reads as it did.
pub fn a_push_changes_no_other_layer()
    ensures { (t : Tree) (layer : Layer) (other : Option (List ℕ)) (block : ℕ)
        → other ≢ Some (name_of layer)
        → reads (pushed t layer).layers other block ≡ reads t.layers other block }
{}

/// The head reads as it did, since it stands on another layer or on none.
pub fn a_push_keeps_the_head()
    ensures { (t : Tree) (layer : Layer) (block : ℕ) → t.on ≢ Some (name_of layer)
        → head_reads (pushed t layer) block ≡ head_reads t block }
{}

/// The layer that a snapshot makes reads as the head did.
pub fn a_snapshot_reads_as_the_head_did()
    ensures { (t : Tree) (name : List ℕ) (user_created : Bool) (spare : Tables) (block : ℕ)
        → reads (snapped_tree t name user_created spare).layers (Some name) block ≡ head_reads t block }
{}

/// Each other layer reads as it did.
pub fn a_snapshot_changes_no_other_layer()
    ensures { (t : Tree) (name : List ℕ) (user_created : Bool) (spare : Tables)
        (other : Option (List ℕ)) (block : ℕ) → other ≢ Some name
        → reads (snapped_tree t name user_created spare).layers other block
        ≡ reads t.layers other block }
{}

/// With an empty spare image the head reads as it did.
pub fn a_snapshot_keeps_the_head()
    ensures { (t : Tree) (name : List ℕ) (user_created : Bool) (spare : Tables) (block : ℕ)
        → block_at spare block ≡ None
        → head_reads (snapped_tree t name user_created spare) block ≡ head_reads t block }
{}

/// With an empty spare image the head reads as the layer to which it is reverted.
pub fn a_reverted_head_reads_as_the_layer()
    ensures { (t : Tree) (name : List ℕ) (spare : Tables) (block : ℕ)
        → block_at spare block ≡ None
        → head_reads (reverted_tree t name spare) block ≡ reads t.layers (Some name) block }
{}

/// Three have a block or not, from the head down: the middle one is the second from the lowest.
pub fn a_block_is_found_counted_from_the_lowest()
    ensures { first_true (false ∷ true ∷ true ∷ []) ≡ 2 }
{}

/// Each layer and the head read as they did.
pub fn a_mark_changes_no_reading()
    ensures { (t : Tree) (place : ℕ) → place < length t.layers → KeepsReadings t (marked_at t place) }
{}
