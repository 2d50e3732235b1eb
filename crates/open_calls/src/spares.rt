ghost use Rattle.std.specs.Prelude.{◌≡◌, ◌≢◌, ◌<◌, length, slice_set, None, IfOk};
ghost use Rattle.volume_model.specs.Modes.{mode_of};
ghost use Rattle.open_calls.specs.Calls.{node_at};
ghost use Rattle.open_calls.specs.Whole.{HasSpare, IsSpared, AreSpared, spare_at};

use replica_node::{ReplicaNode, Spare};
use std::alloc::{AllocError, Global};
use std::marker::Model;
use step_answers::WholeOp;
use volume_model::Mode;

/// A spare head, or none where none is wanted or it is used.
#[derive(Drop)]
struct SpareSlot {
    spare: Option<Spare>,
}

impl Model for SpareSlot {
    ghost use Rattle.std.specs.Prelude.{Option};
    ghost use Rattle.sparse_image.specs.Image.{Tables};

    ghost Value = { Option Tables };

    ghost view = { λ s. s.spare };
}

/// The spare heads that an operation uses, made before it starts. Contracts see one for each replica, or none.
#[derive(Drop)]
pub struct Spares {
    slots: Vec<SpareSlot>,
}

impl Model for Spares {
    ghost use Rattle.std.specs.Prelude.{List, Option};
    ghost use Rattle.sparse_image.specs.Image.{Tables};

    ghost Value = { List (Option Tables) };

    ghost view = { λ s. s.slots.items };
}

impl Spares {
    /// One for each replica that has not failed, where the operation uses one.
    pub fn of(
        alloc: Global,
        nodes: &[ReplicaNode],
        modes: &[Mode],
        op: &WholeOp,
    ) -> Result<Spares, AllocError>
        requires { length modes.now ≡ length nodes.now }
        ensures { IfOk result (AreSpared op.now modes.now nodes.now) }
    {
        let mut slots = Vec::new(alloc);
        for r in 0..modes.len() {
            slots.push(slot_for(alloc, &nodes[r], modes[r], op)?)?;
        }
        Ok(Spares { slots })
    }

    /// Those of the barrier of a rebuild, by which the target is that blank replica.
    pub fn with_blank(
        alloc: Global,
        nodes: &[ReplicaNode],
        modes: &[Mode],
        target: u8,
        blank: &ReplicaNode,
    ) -> Result<Spares, AllocError>
        requires { length modes.now ≡ length nodes.now }
        ensures { IfOk result (AreSpared (WholeOp.Barrier target) (slice_set modes.now target Mode.Wo)
            (slice_set nodes.now target blank.now)) }
    {
        let mut slots = Vec::new(alloc);
        for r in 0..modes.len() {
            slots.push(barrier_slot(alloc, nodes, modes, target, blank, r)?)?;
        }
        Ok(Spares { slots })
    }

    /// The one of a replica, which is used now.
    pub fn take(&mut self, replica: u8) -> Option<Spare>
        ensures value { result ≡ spare_at self.old replica }
        ensures used { self.new ≡ slice_set self.old replica None }
    {
        let replica = replica as usize;
        if replica < self.slots.len() {
            self.slots[replica].spare.take()
        } else {
            None
        }
    }
}

/// A spare head for a replica of that mode.
fn slot_for(
    alloc: Global,
    node: &ReplicaNode,
    mode: Mode,
    op: &WholeOp,
) -> Result<SpareSlot, AllocError>
    ensures { IfOk result (λ slot. mode ≢ Mode.Err → IsSpared op.now node.now slot) }
{
    match (mode, op) {
        (Mode::Rw | Mode::Wo, WholeOp::Snapshot(_) | WholeOp::Revert(_) | WholeOp::Barrier(_)) =>
            Ok(SpareSlot {
                spare: Some(node.spare_head(alloc)?),
            }),
        _ => Ok(SpareSlot { spare: None }),
    }
}

/// A spare head for a replica at the barrier of a rebuild.
fn barrier_slot(
    alloc: Global,
    nodes: &[ReplicaNode],
    modes: &[Mode],
    target: u8,
    blank: &ReplicaNode,
    r: usize,
) -> Result<SpareSlot, AllocError>
    requires node { r < length nodes.now }
    requires mode { r < length modes.now }
    ensures { IfOk result (λ slot. mode_of (slice_set modes.now target Mode.Wo) r ≢ Mode.Err
        → HasSpare (node_at (slice_set nodes.now target blank.now) r) slot) }
{
    if r == target as usize {
        slot_for(alloc, blank, Mode::Wo, &WholeOp::Barrier(target))
    } else {
        slot_for(alloc, &nodes[r], modes[r], &WholeOp::Barrier(target))
    }
}
