ghost use Rattle.std.specs.Prelude.{◌≡◌, IfOk};

use sparse_image::Image;
use std::alloc::{AllocError, Global};
use vol_units::{LayerName, TimeText};

/// What is told of a layer beside its blocks, as its `.meta` file tells it.
#[derive(Drop)]
pub struct LayerMeta {
    pub name: LayerName,
    /// The layer on which it stands.
    pub parent: Option<LayerName>,
    /// It is to be removed.
    pub marked: bool,
    pub user_created: bool,
    /// None for a layer that this run made.
    pub created: Option<TimeText>,
}

/// A layer below the head: what a snapshot keeps.
#[derive(Drop)]
pub struct Layer {
    pub meta: LayerMeta,
    pub image: Image,
}

impl LayerMeta {
    /// The same once more.
    pub(crate) fn copied(&self, alloc: Global) -> Result<LayerMeta, AllocError>
        ensures { IfOk result (λ meta. meta ≡ self.now) }
    {
        let created = match &self.created {
            Some(time) => Some(same_time(alloc, time)?),
            None => None,
        };
        Ok(LayerMeta {
            name: self.name,
            parent: self.parent,
            marked: self.marked,
            user_created: self.user_created,
            created,
        })
    }
}

/// The same text once more.
fn same_time(alloc: Global, time: &TimeText) -> Result<TimeText, AllocError>
    ensures { IfOk result (λ copy. copy ≡ time.now) }
{
    match TimeText::read(alloc, time.as_str())? {
        Some(copy) => Ok(copy),
        None => unreachable!(),
    }
}
