//! A purge: what goes next, and the folding of a page on one replica.

ghost use Rattle.std.specs.Prelude.{◌≡◌, ◌≢◌, ℕ, ◌*◌, ◌<◌, length, true, false, None, Some, IfErr, OnOk, OnErr, MatchOption};
ghost use Rattle.vol_units.specs.declared.size.TheConstants.{PAGE_BYTES};
ghost use Rattle.volume_model.specs.Modes.{mode_of, HasSource};
ghost use Rattle.volume_model.specs.Purge.{CanBeDone, CanFold, gone};
ghost use Rattle.replica_node.specs.Fold.{tree_of, HasBlockOf, HasNoBlockOf};
ghost use Rattle.open_calls.specs.Calls.{node_at};
ghost use Rattle.open_calls.specs.Clients.{IsIdle};
ghost use Rattle.open_calls.specs.Maint.{CanGo, HasTurn, command_at};
ghost use Rattle.open_calls.specs.Whole.{IsFolded};
ghost use Rattle.volume_core.specs.State.{state_of, modes_in};
ghost use Rattle.volume_core.specs.Sound.{IsSound};
ghost use Rattle.volume_core.specs.Streams.{MayGo};
ghost use Rattle.volume_maint.specs.Steps.{folded_on};
ghost use Rattle.volume_maint.specs.Answers.{snapshots_told, IsNew, IsOntoNew, HasNoChild, child_of, IsNextPart, WantsFold, IsFreePurge, FoldsPage, AgainstFold};

use open_calls::{FoldOrDrop, LayerName, WholeOp};
use step_answers::NextPart;
use volume_core::{Command, Mode, NotThis, World, is_idle};

/// What a purge does next, as the first replica that is read tells it.
pub fn fold_next(world: &World) -> NextPart
    requires sound { IsSound (state_of world.now) }
    ensures { IsNextPart (state_of world.now) result }
{
    let Some(source) = world.journal.source() else {
        return NextPart::NoReplica;
    };
    if let Some(whole) = &world.whole {
        return NextPart::After(whole.number);
    }
    match world.nodes[source as usize].next_fold() {
        Some(part) => NextPart::Part(part),
        None => NextPart::Nothing,
    }
}

/// Whether a part of a purge can go now: it can be done, and each replica that is read has folded it.
pub(crate) fn can_go(world: &World, part: &FoldOrDrop) -> bool
    requires sound { IsSound (state_of world.now) }
    requires turn { (stream : ℕ) × IsIdle stream world.now.calls.items
        × HasTurn world.now.maint.tickets world.now.commands.items stream Command.Purge }
    ensures can { result ≡ true → CanGo (snapshots_told (state_of world.now)) (modes_in (state_of world.now))
        world.now.nodes.items part.now }
    ensures cannot { result ≡ false → HasSource (modes_in (state_of world.now))
        → CanGo (snapshots_told (state_of world.now)) (modes_in (state_of world.now)) world.now.nodes.items part.now → ⊥ }
{
    match world.journal.source() {
        Some(source) => can_be_done(world, source, part) && is_folded(world, part),
        None => false,
    }
}

/// Whether the part can be done in the volume, as that replica tells it, which is read. A snapshot that is started is not yet
/// the volume's.
fn can_be_done(world: &World, source: u8, part: &FoldOrDrop) -> bool
    requires sound { IsSound (state_of world.now) }
    requires read { mode_of (modes_in (state_of world.now)) source ≡ Mode.Rw }
    requires turn { (stream : ℕ) × IsIdle stream world.now.calls.items
        × HasTurn world.now.maint.tickets world.now.commands.items stream Command.Purge }
    ensures can { result ≡ true → CanBeDone (snapshots_told (state_of world.now)).tree
        (snapshots_told (state_of world.now)).on part.now }
    ensures cannot { result ≡ false → CanBeDone (snapshots_told (state_of world.now)).tree
        (snapshots_told (state_of world.now)).on part.now → ⊥ }
{
    if is_onto_new(world, part) {
        return false;
    }
    match world.nodes[source as usize].way_of(&gone(part)) {
        Some(way) => way == *part,
        None => false,
    }
}

/// Whether the part folds a layer into the one that a started snapshot makes.
fn is_onto_new(world: &World, part: &FoldOrDrop) -> bool
    ensures new { result ≡ true → IsOntoNew (state_of world.now) part.now }
    ensures not { result ≡ false → IsOntoNew (state_of world.now) part.now → ⊥ }
{
    match part {
        FoldOrDrop::Fold { parent: _, child } => is_new(world, child),
        FoldOrDrop::Drop(_) => false,
    }
}

/// Whether a started snapshot makes the layer of that name.
fn is_new(world: &World, name: &LayerName) -> bool
    ensures new { result ≡ true → IsNew (state_of world.now) name.now }
    ensures not { result ≡ false → IsNew (state_of world.now) name.now → ⊥ }
{
    match &world.whole {
        Some(whole) => match whole.op {
            WholeOp::Snapshot(new) => *name == LayerName::from(new),
            WholeOp::Remove(_) | WholeOp::Revert(_) | WholeOp::Purge(_) | WholeOp::Barrier(_) =>
                false,
        },
        None => false,
    }
}

/// The layer that goes.
fn gone(part: &FoldOrDrop) -> LayerName
    ensures { result ≡ gone part.now }
{
    match *part {
        FoldOrDrop::Fold { parent, child: _ } => parent,
        FoldOrDrop::Drop(name) => name,
    }
}

/// Whether each replica that is read has folded the part's child.
fn is_folded(world: &World, part: &FoldOrDrop) -> bool
    requires sound { IsSound (state_of world.now) }
    ensures folded { result ≡ true → (r : ℕ) → mode_of (modes_in (state_of world.now)) r ≡ Mode.Rw
        → IsFolded part.now (node_at world.now.nodes.items r) }
    ensures not { result ≡ false → ((r : ℕ) → mode_of (modes_in (state_of world.now)) r ≡ Mode.Rw
        → IsFolded part.now (node_at world.now.nodes.items r)) → ⊥ }
{
    let FoldOrDrop::Fold { child, .. } = part else {
        return true;
    };
    for r in 0..world.journal.replica_count() {
        if world.journal.mode(r) == Mode::Rw && !world.nodes[r as usize].is_bare(child) {
            return false;
        }
    }
    true
}

/// Whether a replica is read, and has a block of the page in the layer into which that one can be folded there.
pub fn fold_wanted(world: &World, replica: u8, parent: &LayerName, page: u32) -> bool
    requires sound { IsSound (state_of world.now) }
    ensures wanted { result ≡ true → WantsFold (state_of world.now) replica parent.now page }
    ensures not { result ≡ false → WantsFold (state_of world.now) replica parent.now page → ⊥ }
{
    if world.journal.mode(replica) != Mode::Rw {
        return false;
    }
    match child_on(world, replica, parent) {
        Some(child) => has_blocks(world, replica, &child, page),
        None => false,
    }
}

/// Whether the replica itself has a block of the page in that layer.
fn has_blocks(world: &World, replica: u8, layer: &LayerName, page: u32) -> bool
    requires { replica < length world.now.nodes.items }
    ensures some { result ≡ true → HasBlockOf (node_at world.now.nodes.items replica) layer.now page }
    ensures none { result ≡ false → HasNoBlockOf (node_at world.now.nodes.items replica) layer.now page }
{
    world.nodes[replica as usize].has_blocks(layer, page)
}

/// The layer into which that one can be folded on the replica.
fn child_on(world: &World, replica: u8, parent: &LayerName) -> Option<LayerName>
    requires { replica < length world.now.nodes.items }
    ensures { MatchOption result
        (HasNoChild (node_at world.now.nodes.items replica) parent.now)
        (λ c. CanFold (tree_of (node_at world.now.nodes.items replica)) (node_at world.now.nodes.items replica).on
        parent.now c) }
{
    match world.nodes[replica as usize].way_of(parent) {
        Some(way) => child_of(&way),
        None => None,
    }
}

/// The layer that takes the blocks and the place of the one that goes, if it is folded.
fn child_of(part: &FoldOrDrop) -> Option<LayerName>
    ensures { result ≡ child_of part.now }
{
    match *part {
        FoldOrDrop::Fold { parent: _, child } => Some(child),
        FoldOrDrop::Drop(_) => None,
    }
}

/// A replica folds a page of the layer's one child onto the layer, for the purge that has the turn. Else it tells what
/// stands against it: the turn, the replica's mode, or that the layer can be folded into none. It takes no memory.
pub fn fold_page(
    world: &mut World,
    replica: u8,
    parent: &LayerName,
    page: u32,
) -> Result<(), NotThis>
    requires sound { IsSound (state_of world.old) }
    requires page { page * PAGE_BYTES < world.old.size }
    ensures sound { IsSound (state_of world.new) }
    ensures ok { OnOk result (FoldsPage (state_of world.old) replica parent.now page (state_of world.new)) }
    ensures why { IfErr result (AgainstFold (state_of world.old) replica parent.now) }
    ensures err { OnErr result (state_of world.new ≡ state_of world.old) }
    ensures may { MayGo (command_at world.old.commands.items 0).stream (state_of world.old) (state_of world.new) }
{
    if !is_purging(world) {
        return Err(NotThis::Ticket);
    }
    let mode = world.journal.mode(replica);
    if mode != Mode::Rw {
        return Err(NotThis::Mode(mode));
    }
    match child_on(world, replica, parent) {
        Some(child) if !is_new(world, &child) => {
            fold_on(world, replica, parent, &child, page);
            Ok(())
        }
        _ => Err(NotThis::Page),
    }
}

/// The replica folds the page.
fn fold_on(world: &mut World, replica: u8, parent: &LayerName, child: &LayerName, page: u32)
    requires node { replica < length world.old.nodes.items }
    requires can { CanFold (tree_of (node_at world.old.nodes.items replica)) (node_at world.old.nodes.items replica).on
        parent.now child.now }
    requires inside { page * PAGE_BYTES < length (node_at world.old.nodes.items replica).disk }
    ensures { state_of world.new ≡ folded_on (state_of world.old) replica parent.now child.now page }
{
    world.nodes[replica as usize].fold_step(parent, child, page);
}

/// Whether a purge has the turn, and nothing enrolled for the whole volume.
fn is_purging(world: &World) -> bool
    requires sound { IsSound (state_of world.now) }
    ensures purging { result ≡ true → IsFreePurge (state_of world.now) }
    ensures not { result ≡ false → IsFreePurge (state_of world.now) → ⊥ }
{
    if world.commands.is_empty() {
        return false;
    }
    let first = world.commands[0];
    world.maint.ticket(0).started && first.command == Command::Purge && is_idle(world, first.stream)
}
