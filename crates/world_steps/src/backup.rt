//! What a look at a snapshot's copy tells of it, on a World that was taken.

ghost use Rattle.std.specs.Prelude.{◌≡◌, None, MatchOption};
ghost use Rattle.backup_make.specs.Giving.{HasCopy};
ghost use Rattle.volume_core.specs.State.{state_of};
ghost use Rattle.volume_core.specs.Sound.{IsSound};
ghost use Rattle.volume_backup.specs.Copies.{copies_told};

use vol_units::VolumeSize;
use volume_core::World;
use volume_maint::LayerName;

/// The size of a snapshot's copy, where the snapshot can be used: the disk's own.
pub(crate) fn size_in(world: &World, name: &LayerName) -> Option<VolumeSize>
    requires sound { IsSound (state_of world.now) }
    ensures { MatchOption result (copies_told (state_of world.now) name.now ≡ None)
        (HasCopy (copies_told (state_of world.now) name.now)) }
{
    if volume_backup::is_live(world, name) {
        Some(world.size)
    } else {
        None
    }
}
