//! One step of a rebuild past its barrier, if its condition and its guard hold.

ghost use Rattle.std.specs.Prelude.{◌≡◌, IfOk, OnOk, OnErr, MatchOption};
ghost use Rattle.volume_core.specs.Sound.{IsSound};
ghost use Rattle.volume_core.specs.State.{state_of};
ghost use Rattle.volume_rebuild.specs.Answers.{IsNoPage, IsOutOfSource};
ghost use Rattle.core_laws.specs.RebuildTakes.{MakesRebuild};

use crate::rebuild_step::RebuildStep;
use std::alloc::{AllocError, Global};
use volume_core::World;
use volume_rebuild::{Page, PageRef, copy_in, copy_out, promote};

/// Takes the step, or skips it.
pub(crate) fn take_rebuild_step(
    world: &mut World,
    alloc: Global,
    step: &RebuildStep,
) -> Result<(), AllocError>
    requires { IsSound (state_of world.old) }
    ensures sound { IsSound (state_of world.new) }
    ensures ok { OnOk result (MakesRebuild step.now (state_of world.old) (state_of world.new)) }
    ensures err { OnErr result (state_of world.new ≡ state_of world.old) }
{
    match step {
        RebuildStep::CopyOut(page) => take_out(world, alloc, page)?,
        RebuildStep::CopyIn(page) => take_in(world, alloc, page)?,
        RebuildStep::Promote(ticket) => {
            let _ = promote(world, *ticket);
        }
    }
    Ok(())
}

/// What goes out is given to nobody here.
fn take_out(world: &World, alloc: Global, page: &PageRef) -> Result<(), AllocError>
    requires { IsSound (state_of world.now) }
    ensures { OnOk result (MakesRebuild (RebuildStep.CopyOut page.now) (state_of world.now) (state_of world.now)) }
{
    let mut into = Page::unmade(alloc).lent(alloc)?;
    let _ = copy_out(world, page, &mut into);
    Ok(())
}

/// No step between changes a frozen layer of the source, so here the page comes into the target at once.
fn take_in(world: &mut World, alloc: Global, page: &PageRef) -> Result<(), AllocError>
    requires { IsSound (state_of world.old) }
    ensures sound { IsSound (state_of world.new) }
    ensures ok { OnOk result (MakesRebuild (RebuildStep.CopyIn page.now) (state_of world.old) (state_of world.new)) }
    ensures err { OnErr result (state_of world.new ≡ state_of world.old) }
{
    match page_out(world, alloc, page)? {
        Some(mut out) => {
            let _ = copy_in(world, page, &mut out);
        }
        None => {}
    }
    Ok(())
}

/// What the source itself has of the page. None: it is no page that is copied.
fn page_out(world: &World, alloc: Global, page: &PageRef) -> Result<Option<Page>, AllocError>
    requires { IsSound (state_of world.now) }
    ensures { IfOk result (λ out. MatchOption out (IsNoPage (state_of world.now) page.now)
        (IsOutOfSource (state_of world.now) page.now)) }
{
    let mut into = Page::unmade(alloc).lent(alloc)?;
    match copy_out(world, page, &mut into) {
        Ok(true) => Ok(Some(into)),
        Ok(false) => Ok(Some(Page::unmade(alloc))),
        Err(_) => Ok(None),
    }
}
