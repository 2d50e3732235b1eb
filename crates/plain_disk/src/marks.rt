//! What marks leave of the disk.

ghost use Rattle.std.specs.Prelude.{◌≡◌, ◌+◌, ◌^◌, ◌<◌, OnOk, OnErr};
ghost use Rattle.volume_model.specs.Marks.{after_mark};
ghost use Rattle.volume_model.specs.PlainState.{purged};
ghost use Rattle.plain_disk.specs.Marks.{MarkTakesSnapshot};

use crate::disk::PlainDisk;
use crate::snapshots::{give_parent, parent_of, take_out};
use std::alloc::{AllocError, Global};
use volume_model::{FoldOrDrop, Mark};

impl PlainDisk {
    /// Is then what a mark leaves. The begin of a rebuild takes a snapshot, and alone takes memory.
    pub fn follow(&mut self, alloc: Global, mark: &Mark) -> Result<(), AllocError>
        requires number { MarkTakesSnapshot mark.now → self.old.volume.snapshots.number + 1 < 2 ^ 64 }
        ensures ok { OnOk result (self.new ≡ after_mark self.old mark.now) }
        ensures err { OnErr result (self.new ≡ self.old) }
        ensures cause { OnErr result (MarkTakesSnapshot mark.now) }
    {
        match mark {
            Mark::Purged(part) => self.purge(part),
            Mark::Added { name, .. } => self.take(alloc, *name)?,
            Mark::Fault { .. } | Mark::Failed(_) | Mark::Promoted(_) | Mark::Aborted(_) => {}
        }
        Ok(())
    }

    /// Takes out what a part of a purge takes out.
    fn purge(&mut self, part: &FoldOrDrop)
        ensures { self.new ≡ record self.old { volume = purged self.old.volume part.now } }
    {
        match part {
            FoldOrDrop::Fold { parent, child } => {
                let below = parent_of(&self.snapshots, parent);
                take_out(&mut self.snapshots, parent);
                give_parent(&mut self.snapshots, child, &below);
            }
            FoldOrDrop::Drop(name) => take_out(&mut self.snapshots, name),
        }
    }
}
