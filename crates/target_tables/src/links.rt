use crate::folders::{own_folder, path_of};
use crate::objects::lists;
use folder_target::FolderTarget;
use std::fs;
use std::os::unix::fs::symlink;
use std::test::Fail;
use target_traits::{OuterError, Target};

#[test]
fn a_link_is_no_object_and_is_not_followed(rt: HostRuntime) -> Result<(), Fail> {
    let base = own_folder(&rt, "link", rt.process())?;
    let mut target = FolderTarget::new(&rt, &base)?;
    target.put("backupstore/kept", b"kept")?;
    symlink(&rt, "kept", path_of(&base, "backupstore/link")?)?;
    assert!(rt; target.get("backupstore/link", 9) == Err(OuterError::Failed));
    lists(&rt, &mut target, "", &["backupstore/kept"])?;
    target.put("backupstore/link", b"x")?;
    assert_eq!(rt;
        target.get("backupstore/link", 9)?.as_deref(),
        Some(b"x".as_slice())
    );
    assert_eq!(rt;
        target.get("backupstore/kept", 9)?.as_deref(),
        Some(b"kept".as_slice())
    );
    Ok(fs::remove_dir_all(&rt, base)?)
}

#[test]
fn a_link_beside_an_object_is_replaced(rt: HostRuntime) -> Result<(), Fail> {
    let base = own_folder(&rt, "beside-link", rt.process())?;
    let mut target = FolderTarget::new(&rt, &base)?;
    target.put("backupstore/kept", b"kept")?;
    symlink(&rt, "kept", path_of(&base, "backupstore/a.tmp")?)?;
    target.put("backupstore/a", b"abc")?;
    assert_eq!(rt;
        target.get("backupstore/kept", 9)?.as_deref(),
        Some(b"kept".as_slice())
    );
    assert_eq!(rt;
        target.get("backupstore/a", 9)?.as_deref(),
        Some(b"abc".as_slice())
    );
    Ok(fs::remove_dir_all(&rt, base)?)
}

#[test]
fn a_folder_that_is_a_link_is_not_entered(rt: HostRuntime) -> Result<(), Fail> {
    let base = own_folder(&rt, "linked", rt.process())?;
    let mut target = FolderTarget::new(&rt, &base)?;
    target.put("backupstore/real/a", b"kept")?;
    symlink(&rt, "real", path_of(&base, "backupstore/linked")?)?;
    let name = "backupstore/linked/a";
    assert!(rt; target.get(name, 9) == Err(OuterError::Failed));
    assert!(rt; target.put(name, b"x") == Err(OuterError::Failed));
    assert!(rt; target.remove(name) == Err(OuterError::Failed));
    lists(&rt, &mut target, "", &["backupstore/real/a"])?;
    assert_eq!(rt;
        target.get("backupstore/real/a", 9)?.as_deref(),
        Some(b"kept".as_slice())
    );
    Ok(fs::remove_dir_all(&rt, base)?)
}
