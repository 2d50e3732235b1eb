use outer_memory::FaultPlan;
use shelf_memory::{MemoryShelves, NoFaultShelves};
use shelf_traits::{OuterError, Shelves};
use std::process::Abort;
use std::test::Fail;

/// Writes behind a gap, and then over the last byte.
fn write_twice(shelves: &mut impl Shelves) -> Result<(), Fail> {
    shelves.write_at(1, "a", 2, b"bc")?;
    shelves.write_at(1, "a", 3, b"d")?;
    Ok(())
}

/// The file is cut, and as long as that.
fn is_cut(rt: &impl Abort, shelves: &mut impl Shelves) -> Result<(), Fail> {
    shelves.set_len(1, "a", 3)?;
    assert_eq!(rt; shelves.len(1, "a")?, Some(3));
    Ok(())
}

#[test]
fn a_file_is_written_in_place(rt: HostRuntime) -> Result<(), Fail> {
    let mut shelves = NoFaultShelves::new(rt.alloc());
    write_twice(&mut shelves)?;
    assert_eq!(rt; shelves.held(1, "a"), Some(b"\0\0bd".as_slice()));
    is_cut(&rt, &mut shelves)
}

/// A file is read as far as it goes.
fn is_read(rt: &impl Abort, shelves: &mut impl Shelves) -> Result<(), Fail> {
    shelves.write_at(0, "a", 0, b"abc")?;
    let mut into = [b'-'; 4];
    assert_eq!(rt; shelves.read_at(0, "a", 1, &mut into)?, 2);
    assert_eq!(rt; into, *b"bc--");
    assert_eq!(rt; shelves.read_at(0, "b", 0, &mut into)?, 0);
    Ok(())
}

#[test]
fn a_file_is_read_as_far_as_it_goes(rt: HostRuntime) -> Result<(), Fail> {
    is_read(&rt, &mut NoFaultShelves::new(rt.alloc()))
}

/// Files are listed, each on its shelf, and removed.
fn are_listed(rt: &impl Abort, shelves: &mut impl Shelves) -> Result<(), Fail> {
    shelves.set_len(0, "a", 0)?;
    shelves.set_len(1, "b", 0)?;
    shelves.sync(0)?;
    shelves.remove(1, "b")?;
    assert_eq!(rt; (shelves.files(0)?.len(), shelves.files(1)?.len()), (1, 0));
    Ok(())
}

#[test]
fn files_are_listed_and_removed(rt: HostRuntime) -> Result<(), Fail> {
    are_listed(&rt, &mut NoFaultShelves::new(rt.alloc()))
}

#[test]
fn the_call_that_was_planned_fails(rt: HostRuntime) -> Result<(), Fail> {
    let plan = FaultPlan::new(Vec::from_slice(rt.alloc(), &[2, 3])?);
    let mut shelves = MemoryShelves::new(rt.alloc(), plan);
    shelves.write_at(0, "a", 0, b"a")?;
    assert_eq!(rt; shelves.remove(0, "a"), Err(OuterError::Failed));
    assert!(rt; shelves.failed_at.is_some());
    assert_eq!(rt; shelves.sync(0), Err(OuterError::Failed));
    assert!(rt; shelves.failed_at.is_none());
    assert_eq!(rt; (shelves.faults, shelves.len(0, "a")?), (2, Some(1)));
    Ok(())
}
