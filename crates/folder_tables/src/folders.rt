use crate::opened::opens_as;
use crate::replica::{replica, save_over_older};
use outer_real::FolderShelves;
use replica_node::ReplicaNode;
use shelf_memory::NoFaultShelves;
use shelf_traits::{Outer, OuterError, Shelves};
use std::alloc::Global;
use std::os::unix::fs::symlink;
use std::path::PathBuf;
use std::process::{self, Abort, Process};
use std::rt::{Env, Files};
use std::test::Fail;
use std::{env, fs};

/// A folder of this test's own, which is not there.
fn own_folder<R: Env + Files + AllocGlobal>(
    rt: &R,
    test: &str,
    run: Process,
) -> Result<PathBuf, Fail> {
    let mut folder = env::temp_dir(rt)?;
    folder.push(format!(in rt.alloc(); "folder_tables-{}-{test}", process::id(run))?)?;
    // A run that was cut off may have left it.
    let _ = fs::remove_dir_all(rt, &folder);
    Ok(folder)
}

/// The path of a file below the folder.
fn path_of(folder: &PathBuf, file: &str) -> Result<PathBuf, Fail> {
    let mut path = folder.clone()?;
    path.push(file)?;
    Ok(path)
}

/// Whether a file below the folder holds just these bytes.
fn has_bytes<R: Files + AllocGlobal>(
    rt: &R,
    folder: &PathBuf,
    file: &str,
    wanted: &[u8],
) -> Result<bool, Fail> {
    Ok(fs::read(rt, path_of(folder, file)?)?.as_slice() == wanted)
}

/// Puts a file behind a gap, and one by its length alone, on a shelf that has none.
fn put_two(rt: &impl Abort, shelves: &mut impl Shelves) -> Result<(), Fail> {
    assert_eq!(rt; (shelves.files(7)?.len(), shelves.len(7, "a")?), (0, None));
    shelves.write_at(7, "a", 3, b"bc")?;
    shelves.set_len(7, "b", 3)?;
    shelves.sync(7)?;
    Ok(())
}

/// Cuts the first of the two, and reads what is left.
fn cut_the_first(rt: &impl Abort, shelves: &mut impl Shelves) -> Result<(), Fail> {
    shelves.set_len(7, "a", 4)?;
    let mut into = [b'-'; 4];
    assert_eq!(rt; shelves.read_at(7, "a", 2, &mut into)?, 2);
    assert_eq!(rt; into, *b"\0b--");
    Ok(())
}

/// Removes the second of the two, also where it is gone already.
fn remove_the_second(rt: &impl Abort, shelves: &mut impl Shelves) -> Result<(), Fail> {
    shelves.remove(7, "b")?;
    shelves.remove(7, "b")?;
    assert_eq!(rt; shelves.read_at(7, "b", 0, &mut [0; 4])?, 0);
    assert_eq!(rt;
        (shelves.files(7)?.len(), shelves.len(7, "a")?),
        (1, Some(4))
    );
    Ok(())
}

#[test]
fn a_file_of_a_folder_is_written_in_place(rt: HostRuntime) -> Result<(), Fail> {
    let base = own_folder(&rt, "written", rt.process())?;
    let mut shelves = FolderShelves::new(&rt, &base)?;
    put_two(&rt, &mut shelves)?;
    assert!(rt; has_bytes(&rt, &base, "r7/a", b"\0\0\0bc")?);
    assert!(rt; has_bytes(&rt, &base, "r7/b", b"\0\0\0")?);
    cut_the_first(&rt, &mut shelves)?;
    remove_the_second(&rt, &mut shelves)?;
    Ok(fs::remove_dir_all(&rt, base)?)
}

/// Whether the call failed in the outside.
fn has_failed<T: Drop>(told: Outer<T>) -> bool {
    match told {
        Err(error) => error == OuterError::Failed,
        Ok(_) => false,
    }
}

/// Whether each call that reads or changes a file fails with that name.
fn refuses(shelves: &mut impl Shelves, name: &str) -> bool {
    has_failed(shelves.len(1, name))
        && has_failed(shelves.read_at(1, name, 0, &mut [0; 4]))
        && has_failed(shelves.write_at(1, name, 0, b"x"))
        && has_failed(shelves.set_len(1, name, 0))
}

/// A link on shelf 1, and names that lead out of it or are no file's: none is followed, and the link can be removed.
fn keeps_within(rt: &impl Abort, shelves: &mut impl Shelves) -> Result<(), Fail> {
    for name in ["link", "../r0/kept", ".", "..", ""] {
        assert!(rt; refuses(shelves, name), "at {name}");
    }
    assert!(rt; has_failed(shelves.remove(1, "../r0/kept")));
    assert_eq!(rt; shelves.files(1)?.len(), 1);
    shelves.remove(1, "link")?;
    Ok(())
}

/// A file on shelf 0, and one on shelf 1.
fn put_kept(shelves: &mut impl Shelves) -> Result<(), Fail> {
    shelves.write_at(0, "kept", 0, b"kept")?;
    shelves.set_len(1, "a", 0)?;
    Ok(())
}

#[test]
fn nothing_outside_of_the_folder_is_changed(rt: HostRuntime) -> Result<(), Fail> {
    let base = own_folder(&rt, "outside", rt.process())?;
    let mut shelves = FolderShelves::new(&rt, &base)?;
    put_kept(&mut shelves)?;
    let link = path_of(&base, "r1/link")?;
    symlink(&rt, "../r0/kept", &link)?;
    keeps_within(&rt, &mut shelves)?;
    assert!(rt; fs::symlink_metadata(&rt, &link).is_err());
    assert!(rt; has_bytes(&rt, &base, "r0/kept", b"kept")?);
    Ok(fs::remove_dir_all(&rt, base)?)
}

/// Whether the file of the folder is the one of that name in memory.
fn is_as_in_memory<R: Files + AllocGlobal>(
    rt: &R,
    folder: &PathBuf,
    wanted: &NoFaultShelves,
    name: &str,
) -> Result<bool, Fail> {
    match wanted.held(0, name) {
        Some(bytes) => has_bytes(rt, folder, name, bytes),
        None => Ok(false),
    }
}

/// The folder has the files that are in memory, and no other.
fn has_the_files<R: Files + AllocGlobal + Abort>(
    rt: &R,
    folder: &PathBuf,
    files: usize,
    wanted: &mut NoFaultShelves,
) -> Result<(), Fail> {
    let names = wanted.files(0)?;
    assert_eq!(rt; files, names.len());
    for name in names.iter() {
        let same = is_as_in_memory(rt, folder, wanted, name.as_str())?;
        assert!(rt; same, "another {}", name.as_str());
    }
    Ok(())
}

/// The folder of the replica in memory.
fn saved(alloc: Global, node: &ReplicaNode) -> Result<NoFaultShelves, Fail> {
    let mut shelves = NoFaultShelves::new(alloc);
    save_over_older(alloc, node, &mut shelves)?;
    Ok(shelves)
}

/// The replica is saved to shelf 0, which is the folder, as it is in memory, and opened.
fn is_saved<R: Files + AllocGlobal + Abort>(
    rt: &R,
    folder: &PathBuf,
    node: &ReplicaNode,
    shelves: &mut impl Shelves,
) -> Result<(), Fail> {
    save_over_older(rt.alloc(), node, shelves)?;
    let files = shelves.files(0)?.len();
    has_the_files(rt, folder, files, &mut saved(rt.alloc(), node)?)?;
    opens_as(rt, rt.alloc(), node, shelves)
}

#[test]
fn a_replica_is_saved_to_a_folder_as_in_memory_and_opened(rt: HostRuntime) -> Result<(), Fail> {
    let base = own_folder(&rt, "saved", rt.process())?;
    let (folder, node) = (path_of(&base, "r0")?, replica(rt.alloc())?);
    is_saved(&rt, &folder, &node, &mut FolderShelves::new(&rt, &base)?)?;
    Ok(fs::remove_dir_all(&rt, base)?)
}
