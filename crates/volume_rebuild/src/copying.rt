//! A page goes out of the source, comes into the target, and is listed.

ghost use Rattle.std.specs.Prelude.{◌≡◌, ◌*◌, ◌<◌, length, slice_set, true, false, Some, Contains, IfOk, IfErr, IfSome, OnOk, OnErr, MatchOption};
ghost use Rattle.vol_units.specs.declared.size.TheConstants.{PAGE_BYTES};
ghost use Rattle.sparse_image.specs.Image.{IsLent};
ghost use Rattle.replica_node.specs.Node.{layer_names};
ghost use Rattle.replica_node.specs.Fold.{HasBlockOf, HasNoBlockOf};
ghost use Rattle.replica_node.specs.Held.{IsPageOf, PutsPage};
ghost use Rattle.open_calls.specs.Calls.{node_at};
ghost use Rattle.open_calls.specs.Maint.{command_at};
ghost use Rattle.open_rebuild.specs.declared.rebuilding.Rebuilding.{Rebuilding};
ghost use Rattle.open_rebuild.specs.Claim.{HasBits, with_page};
ghost use Rattle.volume_core.specs.State.{state_of};
ghost use Rattle.volume_core.specs.Sound.{IsSound};
ghost use Rattle.volume_core.specs.Streams.{MayGo};
ghost use Rattle.volume_rebuild.specs.Places.{IsToCopy};
ghost use Rattle.volume_rebuild.specs.Answers.{IsNextPage, CopiesOut, IsNoPage, IsOutOfSource, CopiesIn, IsNotLeft};

use replica_node::Page;
use vol_units::PageRef;
use volume_core::{NotThis, World};

/// The first page that is left to copy, of the rebuild that is open.
pub fn copy_next(world: &World) -> Option<PageRef>
    requires sound { IsSound (state_of world.now) }
    ensures { IsNextPage (state_of world.now) result }
{
    match &world.rebuild {
        Some(rebuild) => rebuild.next(),
        None => None,
    }
}

/// Copies what the source itself has of a page of a frozen layer into a page that is lent, and tells whether it has any
/// block there. What is lent stays as it is where it has none. It takes no memory.
pub fn copy_out(world: &World, page: &PageRef, into: &mut Page) -> Result<bool, NotThis>
    requires sound { IsSound (state_of world.now) }
    requires lent { IsLent into.old }
    ensures ok { IfOk result (λ found. CopiesOut (state_of world.now) page.now found into.old into.new) }
    ensures why { IfErr result (λ why. (why ≡ NotThis.Page) × IsNoPage (state_of world.now) page.now) }
    ensures err { OnErr result (into.new ≡ into.old) }
{
    match &world.rebuild {
        Some(rebuild) if rebuild.is_frozen(page) => {
            Ok(give_page(world, rebuild.source, page, into))
        }
        _ => Err(NotThis::Page),
    }
}

/// What the replica itself has of a page of a layer is copied, if it has any block there.
fn give_page(world: &World, replica: u8, page: &PageRef, into: &mut Page) -> bool
    requires node { replica < length world.now.nodes.items }
    requires kept { Contains (layer_names (node_at world.now.nodes.items replica).layers) page.now.layer }
    requires inside { page.now.page * PAGE_BYTES < length (node_at world.now.nodes.items replica).disk }
    requires lent { IsLent into.old }
    ensures some { result ≡ true → HasBlockOf (node_at world.now.nodes.items replica) page.now.layer page.now.page }
    ensures none { result ≡ false → HasNoBlockOf (node_at world.now.nodes.items replica) page.now.layer page.now.page }
    ensures copied { result ≡ true → IsPageOf (node_at world.now.nodes.items replica) page.now.layer page.now.page into.new }
    ensures same { result ≡ false → into.new ≡ into.old }
{
    world.nodes[replica as usize].copy_page_out(&page.layer, page.page, into)
}

/// Puts a page, which went out of the source, into the target, whose own comes back, and lists it. It takes no memory.
pub fn copy_in(world: &mut World, page: &PageRef, with: &mut Page) -> Result<(), NotThis>
    requires sound { IsSound (state_of world.old) }
    requires page { IsOutOfSource (state_of world.old) page.now with.old }
    ensures sound { IsSound (state_of world.new) }
    ensures ok { OnOk result (CopiesIn (state_of world.old) page.now with.old with.new (state_of world.new)) }
    ensures why { IfErr result (λ why. (why ≡ NotThis.Page) × IsNotLeft (state_of world.old) page.now) }
    ensures err { OnErr result (state_of world.new ≡ state_of world.old) }
    ensures same { OnErr result (with.new ≡ with.old) }
    ensures may { MayGo (command_at world.old.commands.items 0).stream (state_of world.old) (state_of world.new) }
{
    let Some(target) = target_of(world, page) else {
        return Err(NotThis::Page);
    };
    take_page(world, target, page, with);
    list(world, page);
    Ok(())
}

/// The page comes into a layer of the replica.
fn take_page(world: &mut World, replica: u8, page: &PageRef, with: &mut Page)
    requires node { replica < length world.old.nodes.items }
    requires kept { Contains (layer_names (node_at world.old.nodes.items replica).layers) page.now.layer }
    requires inside { page.now.page * PAGE_BYTES < length (node_at world.old.nodes.items replica).disk }
    ensures puts { PutsPage (node_at world.old.nodes.items replica) (node_at world.new.nodes.items replica)
        page.now.layer page.now.page with.old }
    ensures back { IsPageOf (node_at world.old.nodes.items replica) page.now.layer page.now.page with.new }
    ensures state { state_of world.new ≡ record (state_of world.old) {
      nodes = slice_set world.old.nodes.items replica (node_at world.new.nodes.items replica);
    } }
{
    world.nodes[replica as usize].copy_page_in(&page.layer, page.page, with);
}

/// The replica into which the page is left to come.
fn target_of(world: &World, page: &PageRef) -> Option<u8>
    requires sound { IsSound (state_of world.now) }
    ensures { MatchOption result (IsNotLeft (state_of world.now) page.now)
        (λ target. (b : Rebuilding) × IsToCopy (state_of world.now) b page.now × (b.target ≡ target)) }
{
    match &world.rebuild {
        Some(rebuild) if rebuild.is_left(page) => Some(rebuild.target),
        _ => None,
    }
}

/// The page is listed, of the rebuild that is open.
fn list(world: &mut World, page: &PageRef)
    requires layer { IfSome world.old.rebuild (λ b. Contains b.frozen page.now.layer) }
    requires page { IfSome world.old.rebuild (λ b. page.now.page < b.pages) }
    requires bits { IfSome world.old.rebuild HasBits }
    ensures { IfSome world.old.rebuild (λ b. state_of world.new ≡ record (state_of world.old) {
      rebuild = Some (with_page b page.now.layer page.now.page);
    }) }
{
    if let Some(rebuild) = &mut world.rebuild {
        rebuild.list(&page.layer, page.page);
    }
}
