//! What a backup reads, if its condition holds.

ghost use Rattle.std.specs.Prelude.{◌≡◌, length, IfOk, OnOk, OnErr};
ghost use Rattle.vol_units.specs.declared.size.TheConstants.{PAGE_BYTES};
ghost use Rattle.volume_core.specs.Sound.{IsSound};
ghost use Rattle.volume_core.specs.State.{state_of};
ghost use Rattle.core_laws.specs.BackupTakes.{MakesBackup};

use crate::backup_step::BackupStep;
use std::alloc::{AllocError, Global};
use vol_units::PAGE_BYTES;
use volume_backup::{LayerName, snap_page};
use volume_core::World;

/// Takes the step, or skips it.
pub(crate) fn take_backup_step(
    world: &mut World,
    alloc: Global,
    step: &BackupStep,
) -> Result<(), AllocError>
    requires { IsSound (state_of world.old) }
    ensures sound { IsSound (state_of world.new) }
    ensures ok { OnOk result (MakesBackup step.now (state_of world.old) (state_of world.new)) }
    ensures err { OnErr result (state_of world.new ≡ state_of world.old) }
{
    match step {
        BackupStep::SnapPage {
            replica,
            name,
            page,
        } => take_page(world, alloc, *replica, name, *page),
    }
}

/// What is read is given to nobody here.
fn take_page(
    world: &mut World,
    alloc: Global,
    replica: u8,
    name: &LayerName,
    page: u32,
) -> Result<(), AllocError>
    requires { IsSound (state_of world.old) }
    ensures sound { IsSound (state_of world.new) }
    ensures ok { OnOk result (MakesBackup (BackupStep.SnapPage replica name.now page)
        (state_of world.old) (state_of world.new)) }
    ensures err { OnErr result (state_of world.new ≡ state_of world.old) }
{
    let mut into = room_for_page(alloc)?;
    let _ = snap_page(world, replica, name, page, &mut into);
    Ok(())
}

fn room_for_page(alloc: Global) -> Result<Vec<u8>, AllocError>
    ensures { IfOk result (λ room. length room.items ≡ PAGE_BYTES) }
{
    let room = vec![in alloc; 0; PAGE_BYTES as usize]?;
    Ok(room)
}
