//! What each target does.

use std::process::Abort;
use std::test::Fail;
use target_traits::Target;

/// An object holds what was put last, and is got as far as was asked for.
pub(crate) fn is_put_and_got<T: Target>(rt: &impl Abort, target: &mut T) -> Result<(), Fail> {
    let name = "backupstore/volumes/a";
    assert!(rt; target.get(name, 9)?.is_none());
    target.put(name, b"older bytes")?;
    target.put(name, b"abc")?;
    for (most, wanted) in [(0, ""), (2, "ab"), (3, "abc"), (9, "abc")] {
        let got = target.get(name, most)?;
        assert_eq!(rt; got.as_deref(), Some(wanted.as_bytes()), "at {most}");
    }
    target.remove(name)?;
    target.remove(name)?;
    assert!(rt; target.get(name, 9)?.is_none());
    Ok(())
}

/// Puts objects, and none that the prefix of `lists` begins with twice.
pub(crate) fn put_some<T: Target>(target: &mut T) -> Result<(), Fail> {
    for name in [
        "backupstore/c/b2",
        "backupstore/c/b10",
        "backupstore/c/bx/1",
        "backupstore/c/a",
        "backupstore/d",
    ] {
        target.put(name, b"held")?;
    }
    Ok(())
}

/// These are the names that begin so, in this order.
pub(crate) fn lists<T: Target>(
    rt: &impl Abort,
    target: &mut T,
    prefix: &str,
    wanted: &[&str],
) -> Result<(), Fail> {
    let names = target.list(prefix)?;
    assert_eq!(rt; names.len(), wanted.len(), "at {prefix}");
    for (name, wanted) in names.iter().zip(wanted.iter()) {
        assert_eq!(rt; name.as_str(), *wanted, "at {prefix}");
    }
    Ok(())
}
