ghost use Rattle.std.specs.Prelude.{OnOk, OnErr};
ghost use Rattle.volume_core.specs.Sound.{IsSound};
ghost use Rattle.volume_core.specs.State.{state_of};
ghost use Rattle.core_laws.specs.Takes.{MakeInTurn, MakeUntil};

use crate::step::Step;
use crate::take::take_step;
use std::alloc::{AllocError, Global};
use volume_core::World;

/// Takes the steps one after another, whatever they are. A step is skipped only where its condition or its guard
/// fails. Where memory runs out, those before stand.
pub fn run_steps(world: &mut World, alloc: Global, steps: &[Step]) -> Result<(), AllocError>
    requires { IsSound (state_of world.old) }

    // The journal is one legal history, and the replicas agree with it.
    ensures sound { IsSound (state_of world.new) }

    // What they make of the World.
    ensures ok { OnOk result (MakeInTurn steps.now (state_of world.old) (state_of world.new)) }
    ensures err { OnErr result (MakeUntil steps.now (state_of world.old) (state_of world.new)) }
{
    for step in steps {
        take_step(world, alloc, step)?;
    }
    Ok(())
}
