//! How a run begins.

ghost use Rattle.std.specs.Prelude.{◌≡◌, IfOk, true};
ghost use Rattle.folder_checks.specs.Told.{Told};
ghost use Rattle.script_text.specs.Good.{IsGood};
ghost use Rattle.stream_turns.specs.Serving.{IsBegun};
ghost use Rattle.volume_cli.specs.Begun.{HasBegun, BeginsOn};
ghost use Rattle.opened_world.specs.Opening.{opened_spot};
ghost use Rattle.volume_cli.specs.Steps.{begin_of, IsBeginEnd, IsKnownVolume, HasMany};

use crate::status::Status;
use opened_world::open_world;
use outer_traits::OuterError;
use script_text::Script;
use shelf_traits::Shelves;
use std::alloc::{AllocError, Global};
use stream_turns::{World, blank_world};
use volume_folders::{OpenedFolders, OpenedHead, OpenedReplicas, Reason, open_replicas};
use volume_model::Sequence;

/// A run that has begun.
#[derive(Drop)]
pub struct Begun {
    pub world: World,
    /// Why each replica is not read and written. Of a run that opens nothing there is none.
    pub reasons: Vec<Option<Reason>>,
    /// What is told of the head of each replica that was read.
    pub heads: Vec<Option<OpenedHead>>,
}

/// Begins on the folders of the replicas, where the script opens them, and else blank. Nothing is changed.
pub(crate) fn begin<H: Shelves>(
    alloc: Global,
    script: &Script,
    shelves: &mut H,
) -> Result<Begun, Status>
    requires { IsGood script.now }
    ensures begun { IfOk result (λ b. HasBegun (H.holds shelves.old) script.entry.now (begin_of b)) }
    ensures world { IfOk result (λ b. IsBegun script.entry.now (begin_of b).spot b.world) }
    ensures many { IfOk result (λ b. HasMany script.entry.now (begin_of b)) }
    ensures still { H.holds shelves.new ≡ H.holds shelves.old }
    ensures end { IsBeginEnd (H.holds shelves.old) script.entry.now
        (H.faults shelves.old) (H.faults shelves.new) result }
{
    if script.opens {
        begin_opened(alloc, script, shelves)
    } else {
        let world = blank_world(alloc, script)?;
        Ok(Begun {
            world,
            reasons: Vec::new(alloc),
            heads: Vec::new(alloc),
        })
    }
}

/// Begins on the folders, of which the lowest clean one is the disk.
fn begin_opened<H: Shelves>(
    alloc: Global,
    script: &Script,
    shelves: &mut H,
) -> Result<Begun, Status>
    requires good { IsGood script.now }
    requires opens { script.now.opens ≡ true }
    ensures begun { IfOk result (λ b. Told (H.holds shelves.old)
        (λ files. BeginsOn files script.entry.now (begin_of b))) }
    ensures world { IfOk result (λ b. IsBegun script.entry.now (begin_of b).spot b.world) }
    ensures many { IfOk result (λ b. HasMany script.entry.now (begin_of b)) }
    ensures still { H.holds shelves.new ≡ H.holds shelves.old }
    ensures end { IsBeginEnd (H.holds shelves.old) script.entry.now
        (H.faults shelves.old) (H.faults shelves.new) result }
{
    match open_replicas(alloc, script.size, script.replicas, shelves) {
        Ok(OpenedFolders::Volume(opened)) => Ok(begin_on(alloc, script, opened)?),
        Ok(OpenedFolders::NoneClean(reasons)) => Err(Status::NoCleanShelf(Sequence::of(reasons))),
        Err(OuterError::Failed) => Err(Status::ShelfFault),
        Err(OuterError::NoMemory) => Err(Status::NoMemory),
    }
}

/// Begins on replicas that were opened.
fn begin_on(alloc: Global, script: &Script, opened: OpenedReplicas) -> Result<Begun, AllocError>
    requires good { IsGood script.now }
    requires known { IsKnownVolume script.now opened }
    ensures same { IfOk result (λ b. (b.reasons ≡ opened.reasons) × (b.heads ≡ opened.heads)) }
    ensures world { IfOk result (λ b. IsBegun script.entry.now (begin_of b).spot b.world) }
    ensures many { IfOk result (λ b. HasMany script.entry.now (begin_of b)) }
    ensures spot { IfOk result (λ b. (begin_of b).spot
        ≡ opened_spot opened.nodes.items opened.reasons.items) }
{
    let OpenedReplicas {
        nodes,
        heads,
        reasons,
    } = opened;
    let streams = script.streams.len() as u8;
    let world = open_world(alloc, script.size, nodes, &reasons, streams)?;
    Ok(Begun {
        world,
        reasons,
        heads,
    })
}
