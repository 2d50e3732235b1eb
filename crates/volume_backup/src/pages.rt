//! Which pages of a snapshot's copy a backup has to read.

ghost use Rattle.std.specs.Prelude.{◌≡◌, ◌<◌, length, true, Some, IfOk, IfSome};
ghost use Rattle.volume_model.specs.Modes.{mode_of};
ghost use Rattle.backup_make.specs.Giving.{Covers};
ghost use Rattle.replica_node.specs.Fold.{tree_of};
ghost use Rattle.replica_node.specs.Node.{IsKept};
ghost use Rattle.layer_pages.specs.Chains.{is_over};
ghost use Rattle.layer_pages.specs.Pages.{ArePagesAbove, OthersReadAsBase};
ghost use Rattle.open_calls.specs.Calls.{node_at};
ghost use Rattle.volume_core.specs.State.{state_of, told_of, modes_in};
ghost use Rattle.volume_core.specs.Sound.{IsSound};
ghost use Rattle.volume_backup.specs.Copies.{copies_told, IsLive, NoneUnderTurn};
ghost use Rattle.volume_backup.specs.Answers.{is_base, base_of, AreAllPages, AsksAbove, AsksPages};

use crate::told::is_live;
use backup_make::Pages;
use layer_pages::{is_over, pages_above};
use replica_node::LayerName;
use std::alloc::{AllocError, Global};
use volume_core::{Mode, World};

/// Which pages of a snapshot's copy may be other than the base's, or than zeros, as the lowest replica that is read
/// tells it: those of which a layer has a block, above the base where that counts. While no replica is read, each page.
pub fn backup_pages(
    world: &World,
    alloc: Global,
    name: &LayerName,
    base: &Option<LayerName>,
) -> Result<Pages, AllocError>
    requires sound { IsSound (state_of world.now) }
    requires live { IsLive (state_of world.now) name.now }
    requires calm { NoneUnderTurn world.now.whole }
    ensures ok { IfOk result (AsksPages (state_of world.now) name.now base.now) }
    ensures covers { IfOk result (Covers (copies_told (state_of world.now)) name.now base.now) }
{
    match world.journal.source() {
        Some(source) => pages_of(world, alloc, source, name, base),
        None => Ok(Pages::All(all_pages(world, alloc)?)),
    }
}

/// Those of which a layer of the replica has a block.
fn pages_of(
    world: &World,
    alloc: Global,
    replica: u8,
    name: &LayerName,
    base: &Option<LayerName>,
) -> Result<Pages, AllocError>
    requires sound { IsSound (state_of world.now) }
    requires read { mode_of (modes_in (state_of world.now)) replica ≡ Mode.Rw }
    requires live { IsLive (state_of world.now) name.now }
    requires calm { NoneUnderTurn world.now.whole }
    ensures ok { IfOk result (AsksAbove (node_at world.now.nodes.items replica) name.now
        (base_of (told_of (state_of world.now)).volume name.now base.now)) }
    ensures covers { IfOk result (Covers (copies_told (state_of world.now)) name.now base.now) }
{
    let above = base_of(world, replica, name, base);
    let pages = list_above(world, alloc, replica, name, &above)?;
    match above {
        Some(_) => Ok(Pages::Above(pages)),
        None => Ok(Pages::All(pages)),
    }
}

/// The pages of which a layer of the replica has a block, above that base.
fn list_above(
    world: &World,
    alloc: Global,
    replica: u8,
    name: &LayerName,
    base: &Option<LayerName>,
) -> Result<Vec<u32>, AllocError>
    requires node { replica < length world.now.nodes.items }
    requires kept { IsKept (node_at world.now.nodes.items replica) (Some name.now) }
    requires over { IfSome base.now
        (λ b. is_over (tree_of (node_at world.now.nodes.items replica)) name.now b ≡ true) }
    ensures ok { IfOk result (λ pages.
        ArePagesAbove (node_at world.now.nodes.items replica) name.now base.now pages.items) }
    ensures others { IfOk result (λ pages.
        OthersReadAsBase (node_at world.now.nodes.items replica) name.now base.now pages.items) }
{
    pages_above(&world.nodes[replica as usize], alloc, name, base)
}

/// The base, if there is one that counts.
fn base_of(
    world: &World,
    replica: u8,
    name: &LayerName,
    base: &Option<LayerName>,
) -> Option<LayerName>
    requires sound { IsSound (state_of world.now) }
    requires read { mode_of (modes_in (state_of world.now)) replica ≡ Mode.Rw }
    requires live { IsLive (state_of world.now) name.now }
    requires calm { NoneUnderTurn world.now.whole }
    ensures { result ≡ base_of (told_of (state_of world.now)).volume name.now base.now }
{
    match base {
        Some(base) if is_base(world, replica, name, base) => Some(*base),
        _ => None,
    }
}

/// Whether the base counts: it is live, and the snapshot of the name or one on which that stands.
fn is_base(world: &World, replica: u8, name: &LayerName, base: &LayerName) -> bool
    requires sound { IsSound (state_of world.now) }
    requires read { mode_of (modes_in (state_of world.now)) replica ≡ Mode.Rw }
    requires live { IsLive (state_of world.now) name.now }
    requires calm { NoneUnderTurn world.now.whole }
    ensures { result ≡ is_base (told_of (state_of world.now)).volume name.now base.now }
{
    if !is_live(world, base) {
        return false;
    }
    is_over(&world.nodes[replica as usize], name, base)
}

/// Each page of the disk.
fn all_pages(world: &World, alloc: Global) -> Result<Vec<u32>, AllocError>
    ensures { IfOk result (λ pages. AreAllPages world.now.size pages.items) }
{
    let count = world.size.page_count();
    let mut pages = Vec::with_capacity(alloc, count as usize)?;
    for page in 0..count {
        pages.push(page)?;
    }
    Ok(pages)
}
