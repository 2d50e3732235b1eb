use crate::objects::{is_put_and_got, lists, put_some};
use folder_target::FolderTarget;
use std::path::PathBuf;
use std::process::{self, Process};
use std::rt::{Env, Files};
use std::test::Fail;
use std::{env, fs};
use target_traits::{OuterError, Target};

/// A folder of this test's own, which is empty.
pub(crate) fn own_folder<R: Env + Files + AllocGlobal>(
    rt: &R,
    test: &str,
    run: Process,
) -> Result<PathBuf, Fail> {
    let mut folder = env::temp_dir(rt)?;
    folder.push(format!(in rt.alloc(); "target_tables-{}-{test}", process::id(run))?)?;
    // A run that was cut off may have left it.
    let _ = fs::remove_dir_all(rt, &folder);
    fs::create_dir(rt, &folder)?;
    Ok(folder)
}

/// The path of what has this name below a folder.
pub(crate) fn path_of(folder: &PathBuf, name: &str) -> Result<PathBuf, Fail> {
    let mut path = folder.clone()?;
    path.push(name)?;
    Ok(path)
}

#[test]
fn an_object_is_put_and_got(rt: HostRuntime) -> Result<(), Fail> {
    let base = own_folder(&rt, "put", rt.process())?;
    is_put_and_got(&rt, &mut FolderTarget::new(&rt, &base)?)?;
    Ok(fs::remove_dir_all(&rt, base)?)
}

#[test]
fn names_are_listed_in_order(rt: HostRuntime) -> Result<(), Fail> {
    let base = own_folder(&rt, "listed", rt.process())?;
    let mut target = FolderTarget::new(&rt, &base)?;
    lists(&rt, &mut target, "", &[])?;
    put_some(&mut target)?;
    lists(
        &rt,
        &mut target,
        "backupstore/c/b",
        &[
            "backupstore/c/b10",
            "backupstore/c/b2",
            "backupstore/c/bx/1",
        ],
    )?;
    assert_eq!(rt; target.list("")?.len(), 5);
    Ok(fs::remove_dir_all(&rt, base)?)
}

#[test]
fn an_object_is_a_file_of_its_name(rt: HostRuntime) -> Result<(), Fail> {
    let base = own_folder(&rt, "file", rt.process())?;
    let mut target = FolderTarget::new(&rt, &base)?;
    target.put("backupstore/a/b.cfg", b"abc")?;
    let path = path_of(&base, "backupstore/a/b.cfg")?;
    assert_eq!(rt; fs::read(&rt, &path)?.as_slice(), b"abc".as_slice());
    fs::write(&rt, &path, "other")?;
    assert_eq!(rt;
        target.get("backupstore/a/b.cfg", 9)?.as_deref(),
        Some(b"other".as_slice())
    );
    Ok(fs::remove_dir_all(&rt, base)?)
}

#[test]
fn the_file_beside_an_object_is_no_object(rt: HostRuntime) -> Result<(), Fail> {
    let base = own_folder(&rt, "beside", rt.process())?;
    let mut target = FolderTarget::new(&rt, &base)?;
    let beside = path_of(&base, "backupstore/a.tmp")?;
    target.put("backupstore/a", b"abc")?;
    // As a run leaves it that is cut off.
    fs::write(&rt, &beside, "a longer text")?;
    lists(&rt, &mut target, "", &["backupstore/a"])?;
    target.put("backupstore/a", b"abd")?;
    assert!(rt; fs::symlink_metadata(&rt, &beside).is_err());
    assert_eq!(rt;
        target.get("backupstore/a", 9)?.as_deref(),
        Some(b"abd".as_slice())
    );
    Ok(fs::remove_dir_all(&rt, base)?)
}

#[test]
fn a_put_that_fails_takes_its_file_away(rt: HostRuntime) -> Result<(), Fail> {
    let base = own_folder(&rt, "failed", rt.process())?;
    let mut target = FolderTarget::new(&rt, &base)?;
    target.put("backupstore/a/b", b"kept")?;
    // A folder has its name, so the last step fails.
    assert_eq!(rt;
        target.put("backupstore/a", b"abc"),
        Err(OuterError::Failed)
    );
    assert!(rt; fs::symlink_metadata(&rt, path_of(&base, "backupstore/a.tmp")?).is_err());
    lists(&rt, &mut target, "", &["backupstore/a/b"])?;
    Ok(fs::remove_dir_all(&rt, base)?)
}

#[test]
fn a_name_that_is_no_objects_is_refused(rt: HostRuntime) -> Result<(), Fail> {
    let base = own_folder(&rt, "names", rt.process())?;
    let mut target = FolderTarget::new(&rt, &base)?;
    for name in [
        "",
        "a",
        "other/a",
        "backupstore",
        "backupstore/",
        "backupstore//a",
        "backupstore/./a",
        "backupstore/../a",
        "backupstore/a/..",
        "backupstore/a.tmp",
        "/backupstore/a",
    ] {
        assert!(rt;
            target.put(name, b"x") == Err(OuterError::Failed),
            "at {name}"
        );
        assert!(rt; target.get(name, 9) == Err(OuterError::Failed), "at {name}");
        assert!(rt; target.remove(name) == Err(OuterError::Failed), "at {name}");
    }
    assert!(rt; fs::symlink_metadata(&rt, path_of(&base, "backupstore")?).is_err());
    Ok(fs::remove_dir_all(&rt, base)?)
}
