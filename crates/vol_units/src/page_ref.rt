use crate::layer_name::LayerName;

/// A page of a layer below the head: the layer's name, and the page's number from 0 on.
#[derive(Clone, Copy, Debug, PartialEq, Eq)]
pub struct PageRef {
    pub layer: LayerName,
    pub page: u32,
}
