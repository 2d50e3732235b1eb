ghost use Rattle.std.specs.Prelude.{◌≡◌, ℕ, ◌≤◌, length, map, IfOk};
ghost use Rattle.volume_core.specs.Opened.{IsOpenedOn};
ghost use Rattle.volume_core.specs.Sound.{IsSound};
ghost use Rattle.volume_core.specs.State.{state_of, opening_of};
ghost use Rattle.volume_folders.specs.Opened.{AreKnownOpened};
ghost use Rattle.volume_folders.specs.Reasons.{mode_for, modes_for};
ghost use Rattle.opened_world.specs.Opening.{opened_opening, opened_spot};

use crate::names::names_of;
use journal_book::{Mode, ModeTable, Opening};
use std::alloc::{AllocError, Global};
use volume_core::World;
use volume_folders::{Reason, ReplicaNode, VolumeSize};

/// A World of the replicas of opened folders, with a place for each of so many streams. The replicas against which no reason
/// stands are read and written, the first of them is the disk, and the others are in ERR.
pub fn open_world(
    alloc: Global,
    size: VolumeSize,
    nodes: Vec<ReplicaNode>,
    reasons: &[Option<Reason>],
    streams: u8,
) -> Result<World, AllocError>
    requires few { length nodes.items ≤ 8 }
    requires known { (replicas : ℕ) × (source : ℕ) × AreKnownOpened size replicas nodes.items reasons.now source }
    ensures sound { IfOk result (λ world. IsSound (state_of world)) }
    ensures begun { IfOk result (λ world. IsOpenedOn size (opened_opening nodes.items reasons.now) nodes.items streams
        (state_of world)) }
    ensures spot { IfOk result (λ world. opening_of (state_of world) ≡ opened_spot nodes.items reasons.now) }
{
    let opening = opening_of(alloc, &nodes, reasons)?;
    let world = World::open(alloc, size, nodes, opening, streams)?;
    Ok(world)
}

/// What the journal is told of the opening.
fn opening_of(
    alloc: Global,
    nodes: &[ReplicaNode],
    reasons: &[Option<Reason>],
) -> Result<Opening, AllocError>
    requires few { length nodes.now ≤ 8 }
    requires known { (size : ℕ) × (replicas : ℕ) × (source : ℕ) × AreKnownOpened size replicas nodes.now reasons.now source }
    ensures { IfOk result (λ opening. opening ≡ opened_opening nodes.now reasons.now) }
{
    let modes = modes_for(alloc, reasons)?;
    let source = modes.source().unwrap();
    let disk = &nodes[usize::from(source)];
    Ok(Opening {
        modes,
        layers: disk.layer_count() as u32,
        names: names_of(alloc, disk)?,
    })
}

/// The mode of each replica.
fn modes_for(alloc: Global, reasons: &[Option<Reason>]) -> Result<ModeTable, AllocError>
    requires { length reasons.now ≤ 8 }
    ensures { IfOk result (λ modes. modes ≡ modes_for reasons.now) }
{
    let mut modes = Vec::new(alloc);
    for why in reasons {
        modes.push(mode_for(why))?;
    }
    Ok(ModeTable::of(&modes))
}

/// The mode of a replica: it is in ERR where a reason stands against it.
fn mode_for(why: &Option<Reason>) -> Mode
    ensures { result ≡ mode_for why.now }
{
    match why {
        None => Mode::Rw,
        Some(_) => Mode::Err,
    }
}
