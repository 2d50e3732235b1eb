use crate::fixed::{DIRTY, FAILED, fixed_folder, put_older_files};
use crate::opened::is_flagged;
use crate::replica::{meta, replica, size};
use outer_memory::FaultPlan;
use replica_node::ReplicaNode;
use replica_open::{Flag, open};
use replica_shelf::save;
use shelf_memory::{MemoryShelves, NoFaultShelves};
use shelf_traits::{OuterError, Shelves};
use std::alloc::Global;
use std::process::Abort;
use std::test::Fail;

/// How many files there are once the one of that name is gone.
fn count_but(shelves: &mut impl Shelves, but: &str) -> Result<usize, Fail> {
    shelves.remove(0, but)?;
    Ok(shelves.files(0)?.len())
}

/// Each of these files is there and holds the same.
fn are_alike(
    rt: &impl Abort,
    shelves: &NoFaultShelves,
    wanted: &mut NoFaultShelves,
) -> Result<(), Fail> {
    let names = wanted.files(0)?;
    for name in names.iter() {
        let same = shelves.held(0, name.as_str()) == wanted.held(0, name.as_str());
        assert!(rt; same, "another {}", name.as_str());
    }
    Ok(())
}

/// Each file of the fixed folder but the one of that name is there, and no other.
fn has_all_but(
    rt: &impl Abort,
    alloc: Global,
    shelves: &mut NoFaultShelves,
    but: &str,
) -> Result<(), Fail> {
    let mut fixed = fixed_folder(alloc, FAILED)?;
    assert_eq!(rt; count_but(shelves, but)?, count_but(&mut fixed, but)?);
    are_alike(rt, shelves, &mut fixed)
}

#[test]
fn a_replica_is_saved_as_its_files(rt: HostRuntime) -> Result<(), Fail> {
    let alloc = rt.alloc();
    let mut shelves = NoFaultShelves::new(alloc);
    put_older_files(&mut shelves)?;
    save(
        alloc,
        &replica(alloc)?,
        &meta(alloc, true)?,
        0,
        &mut shelves,
    )?;
    has_all_but(&rt, alloc, &mut shelves, "no such file")
}

/// The shelves once the call of that number failed, and the answer.
fn saved_but(
    alloc: Global,
    node: &ReplicaNode,
    call: u64,
) -> Result<(Result<(), OuterError>, NoFaultShelves), Fail> {
    let plan = FaultPlan::new(Vec::from_slice(alloc, &[call])?);
    let mut shelves = MemoryShelves::new(alloc, plan);
    put_older_files(&mut shelves.shelves)?;
    let answer = save(alloc, node, &meta(alloc, true)?, 0, &mut shelves);
    Ok((answer, shelves.shelves))
}

/// The volume tells that it is dirty, and its folder opens so.
fn is_dirty(
    rt: &impl Abort,
    alloc: Global,
    call: u64,
    shelves: &mut NoFaultShelves,
) -> Result<(), Fail> {
    let told = shelves.held(0, "volume.meta");
    assert_eq!(rt; told, Some(DIRTY.as_bytes()), "at call {call}");
    assert!(rt; is_flagged(open(alloc, size()?, 0, shelves)?, Flag::Dirty));
    Ok(())
}

/// What stands once the call of that number failed: three calls are for `volume.meta`, then come its files with their
/// sync, and three more.
fn stands(
    rt: &impl Abort,
    alloc: Global,
    call: u64,
    shelves: &mut NoFaultShelves,
) -> Result<(), Fail> {
    if call <= 3 {
        assert!(rt; shelves.held(0, "volume-snap-old.img.meta").is_some());
        Ok(())
    } else if call <= 36 {
        is_dirty(rt, alloc, call, shelves)
    } else {
        has_all_but(rt, alloc, shelves, "volume.meta")
    }
}

#[test]
fn a_folder_of_which_a_call_failed_is_dirty_or_as_it_was(rt: HostRuntime) -> Result<(), Fail> {
    let (alloc, node) = (rt.alloc(), replica(rt.alloc())?);
    // One save makes 39 calls to the shelves.
    for call in 1..40u64 {
        let (answer, mut shelves) = saved_but(alloc, &node, call)?;
        assert_eq!(rt; answer, Err(OuterError::Failed), "at call {call}");
        stands(&rt, alloc, call, &mut shelves)?;
    }
    let (answer, _) = saved_but(alloc, &node, 40)?;
    assert_eq!(rt; answer, Ok(()));
    Ok(())
}
