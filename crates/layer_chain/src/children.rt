ghost use Rattle.std.specs.Prelude.{◌≡◌, ◌↔◌, ℕ, ◌<◌, List, length, Some, IsTrue, IfOk};
ghost use Rattle.layer_chain.specs.Tree.{name_of, layer_at, IsChild};
ghost use Rattle.layer_chain.specs.Children.{Tells, with_child, children_named};

use crate::layer::Layer;
use crate::reading::{is_named, is_wanted};
use std::alloc::{AllocError, Global};
use vol_units::LayerName;

/// What stands on a layer: the head, or a layer by its place.
#[derive(Clone, Copy, PartialEq, Eq, Debug)]
pub enum Child {
    Head,
    Layer(usize),
}

/// How many stand on a layer, the head among them.
#[derive(Clone, Copy, PartialEq, Eq, Debug)]
pub enum Children {
    None,
    One(Child),
    More,
}

/// The names of the layers that stand on that of the name.
pub(crate) fn children_in(
    alloc: Global,
    layers: &[Layer],
    name: &LayerName,
) -> Result<Vec<LayerName>, AllocError>
    ensures { IfOk result (λ names. names.items ≡ children_named layers.now name.now) }
{
    let mut names = Vec::new(alloc);
    for layer in layers {
        if is_wanted(&layer.meta.parent, name) {
            names.push(layer.meta.name)?;
        }
    }
    Ok(names)
}

/// What stands on the layer at a place.
pub(crate) fn standing_in(layers: &[Layer], on: &Option<LayerName>, place: usize) -> Children
    requires { place < length layers.now }
    ensures { Tells layers.now on.now (length layers.now) place result }
{
    let mut found = Children::None;
    if is_on(on, layers, place) {
        found = Children::One(Child::Head);
    }
    for child in 0..layers.len() {
        if is_on(&layers[child].meta.parent, layers, place) {
            found = with_child(found, child);
        }
    }
    found
}

/// Whether what has that parent stands on the layer at a place.
fn is_on(parent: &Option<LayerName>, layers: &[Layer], place: usize) -> bool
    requires { place < length layers.now }
    ensures { IsTrue result ↔ (parent.now ≡ Some (name_of (layer_at layers.now place))) }
{
    match parent {
        Some(name) => is_named(&layers[place], name),
        None => false,
    }
}

fn with_child(found: Children, child: usize) -> Children
    ensures { result ≡ with_child found child }
{
    match found {
        Children::None => Children::One(Child::Layer(child)),
        _ => Children::More,
    }
}
