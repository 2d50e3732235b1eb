ghost use Rattle.std.specs.Prelude.{◌≡◌, ◌↔◌, None, IfSome};
ghost use Rattle.replica_compare.specs.Comparing.{AreAlike, IsFirstDifference};

use crate::readings::first_other_reading;
use crate::shapes::first_other_shape;
use replica_node::ReplicaNode;
use vol_units::LayerName;

/// How two replicas differ first. A layer that is none is the head.
#[derive(Debug, Clone, Copy, PartialEq, Eq)]
pub enum Difference {
    /// The layer is in one alone, or has another parent or mark. The head has another parent or number, or the
    /// replicas are of two sizes.
    Shape(Option<LayerName>),
    /// The layer reads otherwise, at this block first.
    Reads(Option<LayerName>, u32),
}

/// The first difference of two replicas: shapes come before readings, and layers in byte order of their names, the
/// head last. It takes no memory.
pub fn compare(one: &ReplicaNode, other: &ReplicaNode) -> Option<Difference>
    ensures none { (result ≡ None) ↔ AreAlike one.now other.now }
    ensures some { IfSome result (IsFirstDifference one.now other.now) }
{
    if let Some(layer) = first_other_shape(one, other) {
        return Some(Difference::Shape(layer));
    }
    match first_other_reading(one, other) {
        Some((layer, block)) => Some(Difference::Reads(layer, block)),
        None => None,
    }
}
