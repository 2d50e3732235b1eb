//! A World that has just been opened.

ghost use Rattle.std.specs.Prelude.{◌≡◌, ◌<◌, ◌≤◌, length, replicate, IfOk};
ghost use Rattle.volume_model.specs.Copies.{HasCopies};
ghost use Rattle.replica_node.specs.Node.{blank};
ghost use Rattle.replica_node.specs.Volume.{volume_of_node};
ghost use Rattle.volume_core.specs.State.{state_of};
ghost use Rattle.volume_core.specs.Sound.{IsSound};
ghost use Rattle.volume_core.specs.Opened.{MayOpen, IsOpenedOn, blank_opening};

use crate::world::World;
use journal_book::{Journal, ModeTable, Opening, Shown, TakenNames};
use range_turns::Turns;
use replica_node::{ReplicaNode, VolumeSize};
use std::alloc::{AllocError, Global};

impl World {
    /// A World of these replicas and so many streams. The opening tells of the replicas that are read and written.
    pub fn open(
        alloc: Global,
        size: VolumeSize,
        nodes: Vec<ReplicaNode>,
        opening: Opening,
        streams: u8,
    ) -> Result<World, AllocError>
        requires { MayOpen size opening nodes.items }
        ensures sound { IfOk result (λ w. IsSound (state_of w)) }
        ensures begun { IfOk result (λ w. IsOpenedOn size opening nodes.items streams (state_of w)) }
    {
        let world = opened(alloc, size, nodes, opening, streams)?;
        Ok(world)
    }

    /// A World of so many blank replicas, each read and written.
    pub fn blank(
        alloc: Global,
        size: VolumeSize,
        replicas: u8,
        streams: u8,
    ) -> Result<World, AllocError>
        requires some { 0 < replicas }
        requires few { replicas ≤ 8 }
        ensures sound { IfOk result (λ w. IsSound (state_of w)) }
        ensures begun { IfOk result (λ w. IsOpenedOn size (blank_opening replicas)
            (replicate replicas (blank size)) streams (state_of w)) }
    {
        let nodes = blank_nodes(alloc, size, replicas)?;
        let opening = Opening {
            modes: ModeTable::new(replicas),
            layers: 1,
            names: TakenNames::none(alloc),
        };
        World::open(alloc, size, nodes, opening, streams)
    }
}

/// The World of these replicas on which nothing has happened yet.
fn opened(
    alloc: Global,
    size: VolumeSize,
    nodes: Vec<ReplicaNode>,
    opening: Opening,
    streams: u8,
) -> Result<World, AllocError>
    requires { MayOpen size opening nodes.items }
    ensures begun { IfOk result (λ w. IsOpenedOn size opening nodes.items streams (state_of w)) }
    ensures copies { IfOk result (λ w. HasCopies (length w.first.value.disk) (volume_of_node w.first.value)) }
{
    let source = opening.modes.source().unwrap();
    let node = &nodes[source as usize];
    // That its layers are as long as its head, a proof learns here.
    let _blocks = node.block_count();
    let first = Shown::of(node);
    let indices = vec![in alloc; 0; streams as usize]?;
    let gave_up = vec![in alloc; false; streams as usize]?;
    let mut journal = Journal::new(alloc, opening);
    journal.reserve(nodes.len() as u64)?;
    Ok(World {
        size,
        first,
        nodes,
        turns: Turns::new(alloc),
        calls: Vec::new(alloc),
        whole: None,
        maint: Turns::new(alloc),
        commands: Vec::new(alloc),
        rebuild: None,
        ended: None,
        gave_up,
        indices,
        journal,
    })
}

fn blank_nodes(
    alloc: Global,
    size: VolumeSize,
    replicas: u8,
) -> Result<Vec<ReplicaNode>, AllocError>
    ensures { IfOk result (λ v. v.items ≡ replicate replicas (blank size)) }
{
    let mut nodes = Vec::new(alloc);
    for _r in 0..replicas {
        nodes.push(ReplicaNode::blank(alloc, size)?)?;
    }
    Ok(nodes)
}
