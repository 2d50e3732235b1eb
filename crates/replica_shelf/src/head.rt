ghost use Rattle.std.specs.Prelude.{◌≡◌, IfOk, false};

use crate::metas::same_time;
use std::alloc::{AllocError, Global};
use vol_units::TimeText;

/// What is told of a head, beside its number and its parent.
#[derive(Debug, Drop)]
pub struct HeadMeta {
    /// When it was made.
    pub created: TimeText,
    /// A user made it.
    pub user_created: bool,
}

impl HeadMeta {
    /// What is told of a head that a run makes at this time.
    pub fn made_at(alloc: Global, time: &TimeText) -> Result<HeadMeta, AllocError>
        ensures { IfOk result (λ head. head ≡ record { created = time.now; user_created = false }) }
    {
        Ok(HeadMeta {
            created: same_time(alloc, time)?,
            user_created: false,
        })
    }

    /// The same once more.
    pub fn copied(&self, alloc: Global) -> Result<HeadMeta, AllocError>
        ensures { IfOk result (λ head. head ≡ self.now) }
    {
        Ok(HeadMeta {
            created: same_time(alloc, &self.created)?,
            user_created: self.user_created,
        })
    }
}
