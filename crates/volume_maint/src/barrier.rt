//! The barrier of an add: the snapshot under the engine's own name with which a rebuild begins.

ghost use Rattle.std.specs.Prelude.{◌≡◌, ◌<◌, length, map, slice_set, true, false, None, Some, OnOk, OnErr};
ghost use Rattle.std.specs.Option.{option_map};
ghost use Rattle.volume_model.specs.declared.entry.Entry.TheVariants as entry;
ghost use Rattle.volume_model.specs.declared.mark.Mark.TheVariants as mark;
ghost use Rattle.volume_model.specs.Modes.{IsSource};
ghost use Rattle.range_turns.specs.Order.{ticket_at, with_started, IsClear};
ghost use Rattle.step_answers.specs.Parts.{part_for};
ghost use Rattle.volume_core.specs.State.{state_of, modes_in};
ghost use Rattle.volume_core.specs.Steps.{with_entry};
ghost use Rattle.volume_core.specs.Sound.{IsSound};
ghost use Rattle.volume_maint.specs.Steps.{barrier_name, barrier_put, with_places, past_barrier};
ghost use Rattle.volume_maint.specs.Answers.{MayBegin, MayBeginOf, MayNotBegin, BeginsBarrier};

use open_calls::{LayerName, Spares, Whole, WholeOp};
use open_rebuild::Rebuilding;
use std::alloc::{AllocError, Global};
use volume_core::{Entry, Parts, ReplicaNode, World};
use volume_model::Mark;

/// Whether the operation may begin: of a barrier, no rebuild of the command that has the turn was begun, and its replica
/// is there.
pub(crate) fn may_begin(world: &World, op: &WholeOp) -> bool
    ensures may { result ≡ true → MayBegin (state_of world.now) op.now }
    ensures not { result ≡ false → MayNotBegin (state_of world.now) op.now }
{
    match op {
        WholeOp::Barrier(target) => {
            world.rebuild.is_none()
                && world.ended.is_none()
                && (*target as usize) < world.nodes.len()
        }
        WholeOp::Snapshot(_) | WholeOp::Remove(_) | WholeOp::Revert(_) | WholeOp::Purge(_) => true,
    }
}

/// The barrier at i starts, of a rebuild of the target from that source. All memory is taken before anything changes.
pub(crate) fn begin_barrier(
    world: &mut World,
    alloc: Global,
    i: usize,
    target: u8,
    source: u8,
) -> Result<(), AllocError>
    requires sound { IsSound (state_of world.old) }
    requires within { i < length world.old.turns.tickets }
    requires clear { IsClear world.old.turns.tickets i }
    requires none { (state_of world.old).whole ≡ None }
    requires may { MayBeginOf (state_of world.old) target }
    requires source { IsSource (modes_in (state_of world.old)) source }
    ensures ok { OnOk result (BeginsBarrier (state_of world.old) i target (state_of world.new)) }
    ensures err { OnErr result (state_of world.new ≡ state_of world.old) }
{
    let node = &world.nodes[source as usize];
    let rebuild = Rebuilding::begin(alloc, target, source, node)?;
    let blank = node.blank_like(alloc)?;
    let modes = world.journal.modes();
    let spares = Spares::with_blank(alloc, &world.nodes, modes, target, &blank)?;
    make_places(world)?;
    put_barrier(world, i, rebuild, blank, spares);
    Ok(())
}

/// Makes the places in the journal that a rebuild may take.
fn make_places(world: &mut World) -> Result<(), AllocError>
    ensures ok { OnOk result (state_of world.new ≡ with_places (state_of world.old)) }
    ensures err { OnErr result (state_of world.new ≡ state_of world.old) }
{
    world.journal.reserve(world.journal.spare() + 4)
}

/// The barrier at i starts, of that rebuild, with its mark in a place that was made before. The target is that replica now.
fn put_barrier(world: &mut World, i: usize, rebuild: Rebuilding, blank: ReplicaNode, spares: Spares)
    requires within { i < length world.old.turns.tickets }
    requires clear { IsClear world.old.turns.tickets i }
    requires target { rebuild.target < length world.old.nodes.items }
    requires source { rebuild.source < length world.old.nodes.items }
    requires spare { 0 < world.old.journal.spare }
    ensures { state_of world.new ≡ barrier_put (state_of world.old) i rebuild blank spares }
{
    let (target, source) = (rebuild.target, rebuild.source);
    mark_added(world, target, source);
    replace(world, target, blank);
    start_barrier(world, i, target, spares);
    world.rebuild = Some(rebuild);
}

/// The replica is that one now.
fn replace(world: &mut World, replica: u8, node: ReplicaNode)
    requires { replica < length world.old.nodes.items }
    ensures { state_of world.new ≡ record (state_of world.old) {
      nodes = slice_set (state_of world.old).nodes replica node;
    } }
{
    world.nodes[replica as usize] = node;
}

/// The mark of a rebuild's begin, in a place that was made before.
fn mark_added(world: &mut World, target: u8, source: u8)
    requires source { source < length world.old.nodes.items }
    requires spare { 0 < world.old.journal.spare }
    ensures { state_of world.new ≡ record (state_of world.old) {
      book = with_entry (state_of world.old).book
          (entry.Mark (mark.Added target source (barrier_name (state_of world.old) source)));
    } }
{
    let name = LayerName::sys(world.nodes[source as usize].head_number());
    let mark = Mark::Added {
        replica: target,
        source,
        name,
    };
    world.journal.push_reserved(Entry::Mark(mark));
}

/// The barrier at i has started, and each replica that has not failed owes its part.
fn start_barrier(world: &mut World, i: usize, target: u8, spares: Spares)
    requires within { i < length world.old.turns.tickets }
    requires clear { IsClear world.old.turns.tickets i }
    ensures { state_of world.new ≡ record (state_of world.old) {
      tickets = with_started (state_of world.old).tickets i;
      whole = Some (record {
        number = (ticket_at (state_of world.old).tickets i).number;
        op = WholeOp.Barrier target;
        parts = map part_for (modes_in (state_of world.old));
        spares = spares;
      });
    } }
{
    let _replicas = world.journal.replica_count();
    let number = world.turns.ticket(i).number;
    world.turns.start_at(i);
    world.whole = Some(Whole {
        number,
        op: WholeOp::Barrier(target),
        parts: Parts::of_modes(world.journal.modes()),
        spares,
    });
}

/// Pages may be copied, if a rebuild is open.
pub(crate) fn pass_barrier(world: &mut World)
    ensures { state_of world.new ≡ record (state_of world.old) {
      rebuild = option_map past_barrier (state_of world.old).rebuild;
    } }
{
    if let Some(rebuild) = &mut world.rebuild {
        rebuild.may_copy = true;
    }
}
