//! Whether copies may be read: what has started, and which names are live.

ghost use Rattle.std.specs.Prelude.{◌≡◌, true, false};
ghost use Rattle.volume_model.specs.Snapshots.{is_live};
ghost use Rattle.volume_core.specs.State.{state_of, told_of};
ghost use Rattle.volume_core.specs.Sound.{IsSound};
ghost use Rattle.volume_backup.specs.Copies.{NoneUnderTurn};

use replica_node::LayerName;
use step_answers::WholeOp;
use volume_core::World;

/// Whether no operation of a command under the maintenance turn has started.
pub fn is_calm(world: &World) -> bool
    ensures yes { result ≡ true → NoneUnderTurn world.now.whole }
    ensures no { result ≡ false → NoneUnderTurn world.now.whole → ⊥ }
{
    match &world.whole {
        Some(whole) => match whole.op {
            WholeOp::Snapshot(_) => true,
            WholeOp::Remove(_) | WholeOp::Revert(_) | WholeOp::Purge(_) | WholeOp::Barrier(_) =>
                false,
        },
        None => true,
    }
}

/// Whether the name is live in the volume, as the journal tells it.
pub fn is_live(world: &World, name: &LayerName) -> bool
    requires { IsSound (state_of world.now) }
    ensures { result ≡ is_live (told_of (state_of world.now)).volume.snapshots.tree name.now }
{
    // A replica may have by now what a started snapshot makes, which is not live before that ends.
    world.journal.live(name)
}
