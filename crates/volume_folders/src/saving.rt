ghost use Rattle.std.specs.Prelude.{◌≡◌, ◌<◌, ◌≤◌, ◌^◌, true, length, OnOk, Err, IfOk};
ghost use Rattle.outer_traits.specs.Causes.{HasOuterCause};
ghost use Rattle.shelf_traits.specs.Files.{Both};
ghost use Rattle.chain_meta.specs.Kinds.{largest_head};
ghost use Rattle.volume_model.specs.Modes.{mode_of};
ghost use Rattle.replica_shelf.specs.Folder.{IsVolumeOf, volume_meta_of};
ghost use Rattle.replica_shelf.specs.Saving.{ForeignStay, FellElsewhere};
ghost use Rattle.open_calls.specs.Calls.{node_at};
ghost use Rattle.volume_folders.specs.Saved.{is_failed, IsSavedAt, AreSavedAs, OnlyFoldersChange, FellSomewhere};

use crate::beside::learn_replica;
use crate::heads::{OpenedHead, head_meta};
use replica_node::ReplicaNode;
use replica_shelf::{HeadMeta, SaveMeta, TimeText, save};
use shelf_traits::{Outer, OuterError, Shelves};
use std::alloc::{AllocError, Global};
use volume_model::Mode;

/// Saves each replica on its own shelf, in their order: as it is where it is read and written, and
/// else as one in ERR. The heads are those that were opened, if any were.
pub fn save_replicas<S: Shelves>(
    alloc: Global,
    nodes: &[ReplicaNode],
    heads: &[Option<OpenedHead>],
    modes: &[Mode],
    time: &TimeText,
    shelves: &mut S,
) -> Outer<()>
    requires { length nodes.now < 2 ^ 8 }
    ensures ok { OnOk result (Both (S.holds shelves.old) (S.holds shelves.new)
        (λ old new. AreSavedAs new time.now heads.now modes.now nodes.now)) }
    ensures others { Both (S.holds shelves.old) (S.holds shelves.new) (OnlyFoldersChange (length nodes.now)) }

    // Where a call failed, just the replicas before the one that it was for are saved.
    ensures fault { result ≡ Err OuterError.Failed → Both (S.holds shelves.old) (S.holds shelves.new)
        (FellSomewhere time.now heads.now modes.now nodes.now (S.failed_at shelves.new)) }
    ensures cause { HasOuterCause (S.faults shelves.old) (S.faults shelves.new) result }
{
    for shelf in 0..nodes.len() as u8 {
        save_one(alloc, nodes, heads, modes, time, shelf, shelves)?;
    }
    Ok(())
}

/// Saves one of the replicas.
fn save_one<S: Shelves>(
    alloc: Global,
    nodes: &[ReplicaNode],
    heads: &[Option<OpenedHead>],
    modes: &[Mode],
    time: &TimeText,
    shelf: u8,
    shelves: &mut S,
) -> Outer<()>
    requires { shelf < length nodes.now }
    ensures ok { OnOk result (Both (S.holds shelves.old) (S.holds shelves.new)
        (λ old new. IsSavedAt new time.now heads.now modes.now nodes.now shelf)) }
    ensures others { Both (S.holds shelves.old) (S.holds shelves.new) (ForeignStay shelf) }
    ensures dirty { result ≡ Err OuterError.Failed → FellElsewhere (S.failed_at shelves.new)
        → (node_at nodes.now shelf).number ≤ largest_head → Both (S.holds shelves.old) (S.holds shelves.new)
        (λ old new. IsVolumeOf (new shelf) (volume_meta_of true (is_failed (mode_of modes.now shelf)) (node_at nodes.now shelf))) }
    ensures cause { HasOuterCause (S.faults shelves.old) (S.faults shelves.new) result }
{
    let node = &nodes[usize::from(shelf)];
    learn_replica(node);
    let meta = SaveMeta {
        time: same_time(alloc, time)?,
        head: head_meta(alloc, time, heads, shelf, node)?,
        failed: is_failed(Mode::of(modes, shelf)),
    };
    save(alloc, node, &meta, shelf, shelves)
}

/// Whether a replica of that mode is saved as one in ERR.
fn is_failed(mode: Mode) -> bool
    ensures { result ≡ is_failed mode }
{
    match mode {
        Mode::Rw => false,
        Mode::Wo | Mode::Err => true,
    }
}

/// The same text once more.
fn same_time(alloc: Global, time: &TimeText) -> Result<TimeText, AllocError>
    ensures { IfOk result (λ same. same ≡ time.now) }
{
    // What is told of a head made now has it.
    let made = HeadMeta::made_at(alloc, time)?;
    Ok(made.created)
}
