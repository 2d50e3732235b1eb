//! The target is promoted, and its command is answered.

ghost use Rattle.std.specs.Prelude.{◌≡◌, ◌+◌, ◌<◌, length, IfOk, IfErr, OnOk, OnErr};
ghost use Rattle.open_calls.specs.Calls.{node_at};
ghost use Rattle.open_rebuild.specs.Rebuild.{IsReplica};
ghost use Rattle.volume_core.specs.State.{state_of};
ghost use Rattle.volume_core.specs.Sound.{IsSound};
ghost use Rattle.volume_core.specs.Streams.{MayGo};
ghost use Rattle.volume_core.specs.Turn.{ForAsker};
ghost use Rattle.volume_rebuild.specs.Answers.{Promotes, AgainstPromote};
ghost use Rattle.volume_rebuild.specs.Steps.{closed};

use range_turns::TicketNumber;
use volume_core::{Entry, NotThis, Reply, World, end_first, free_turn_at};
use volume_model::Mark;

/// Promotes the target of the rebuild of the command that has the turn, once each page is listed: it is read as well from
/// now on, and the command is answered that it is done. It gives the place of the answer, behind the mark's. It takes no
/// memory.
pub fn promote(world: &mut World, t: TicketNumber) -> Result<u64, NotThis>
    requires sound { IsSound (state_of world.old) }
    ensures sound { IsSound (state_of world.new) }
    ensures place { IfOk result (λ place. place ≡ length world.old.journal.entries + 1) }
    ensures ok { OnOk result (Promotes (state_of world.old) t (state_of world.new)) }
    ensures why { IfErr result (AgainstPromote (state_of world.old) t) }
    ensures err { OnErr result (state_of world.new ≡ state_of world.old) }
    ensures may { ForAsker (state_of world.old) t (λ stream. MayGo stream (state_of world.old) (state_of world.new)) }
{
    if !free_turn_at(world, t) {
        return Err(NotThis::Ticket);
    }
    let Some(rebuild) = &world.rebuild else {
        return Err(NotThis::Ticket);
    };
    if !rebuild.may_copy || !rebuild.is_copied() {
        return Err(NotThis::Page);
    }
    let (source, target) = (rebuild.source, rebuild.target);
    let _source = replica_blocks(world, source);
    let _target = replica_blocks(world, target);
    close(world, target);
    Ok(end_first(world, Reply::Done))
}

/// How many blocks the replica has. That these make its readings, and that no name comes twice, a proof learns here.
fn replica_blocks(world: &World, replica: u8) -> u32
    requires { replica < length world.now.nodes.items }
    ensures { IsReplica (node_at world.now.nodes.items replica) result }
{
    let node = &world.nodes[replica as usize];
    let _count = node.layer_count();
    node.block_count()
}

/// The rebuild is open no more, and the mark tells that its target is promoted.
fn close(world: &mut World, target: u8)
    requires { 0 < world.old.journal.spare }
    ensures { state_of world.new ≡ closed (state_of world.old) target }
{
    world.rebuild = None;
    world
        .journal
        .push_reserved(Entry::Mark(Mark::Promoted(target)));
}
