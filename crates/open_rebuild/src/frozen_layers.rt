ghost use Rattle.std.specs.Prelude.{◌≡◌, ◌↔◌, ◌+◌, ◌<◌, ◌≤◌, length, Contains, IsTrue, IfOk, OnOk};
ghost use Rattle.open_rebuild.specs.Listed.{place_of};
ghost use Rattle.open_rebuild.specs.Frozen.{AreFrozen, IsInByteOrder, AddsName};

use replica_node::LayerName;
use std::alloc::{AllocError, Global};
use std::marker::Model;

/// The names of the layers that the barrier of a rebuild left, all but the head, in the order of their bytes and each
/// once. Contracts see a list of names.
#[derive(Drop)]
pub struct FrozenLayers {
    names: Vec<LayerName>,
}

impl Model for FrozenLayers {
    ghost use Rattle.std.specs.Prelude.{List, ℕ};
    ghost use Rattle.open_rebuild.specs.Frozen.{IsInByteOrder};

    ghost Value = { List (List ℕ) };

    ghost view = { λ l. l.names.items };

    ghost invariant = { λ l. IsInByteOrder l.names.items };
}

impl FrozenLayers {
    /// The names of the layers below a head, and the one under which a barrier closes that head.
    pub fn behind(
        alloc: Global,
        layers: &[LayerName],
        own: LayerName,
    ) -> Result<FrozenLayers, AllocError>
        ensures { IfOk result (λ frozen. AreFrozen layers.now own frozen × IsInByteOrder frozen
            × (length frozen ≤ length layers.now + 1)) }
    {
        let mut names = Vec::with_capacity(alloc, layers.len() + 1)?;
        for layer in layers {
            add(&mut names, *layer)?;
        }
        add(&mut names, own)?;
        Ok(FrozenLayers { names })
    }

    pub fn count(&self) -> usize
        ensures { result ≡ length self.now }
    {
        self.names.len()
    }

    /// The name at a place.
    pub fn name_at(&self, place: usize) -> LayerName
        requires { place < length self.now }
        ensures there { Contains self.now result }
        ensures place { place_of self.now result ≡ place }
    {
        self.names[place]
    }

    /// The place of the layer of the name, and behind the last where none has it.
    #[tactic(auto, using(crate::proofs::PlaceLemmas::place_at, crate::proofs::PlaceLemmas::place_past))]
    pub fn place(&self, name: &LayerName) -> usize
        ensures { result ≡ place_of self.now name.now }
    {
        for place in 0..self.names.len() {
            if self.names[place] == *name {
                return place;
            }
        }
        self.names.len()
    }

    /// Whether one has the name.
    pub fn has(&self, name: &LayerName) -> bool
        ensures { IsTrue result ↔ Contains self.now name.now }
    {
        self.place(name) < self.names.len()
    }
}

/// Puts a name in its place, unless it is there.
fn add(names: &mut Vec<LayerName>, name: LayerName) -> Result<(), AllocError>
    requires { IsInByteOrder names.old.items }
    ensures { OnOk result (AddsName names.old.items names.new.items name) }
{
    match names.binary_search(&name) {
        Ok(_there) => Ok(()),
        Err(place) => {
            names.insert(place, name)?;
            Ok(())
        }
    }
}
