ghost use Rattle.std.specs.Prelude.{◌≡◌, Some, OnOk};
ghost use Rattle.outer_traits.specs.Causes.{HasOuterCause};
ghost use Rattle.shelf_traits.specs.Failing.{FailsAt};
ghost use Rattle.shelf_traits.specs.Files.{Both, OthersStay, Becomes};

use shelf_traits::{Outer, Shelves};

/// The file holds these bytes, whatever it held.
pub(crate) fn put_file<S: Shelves>(
    file: &str,
    bytes: &[u8],
    shelf: u8,
    shelves: &mut S,
) -> Outer<()>
    ensures ok { OnOk result
        (Both (S.holds shelves.old) (S.holds shelves.new) (Becomes shelf file.now (Some bytes.now))) }
    ensures others { Both (S.holds shelves.old) (S.holds shelves.new) (OthersStay shelf file.now) }
    ensures cause { HasOuterCause (S.faults shelves.old) (S.faults shelves.new) result }
    ensures fault { FailsAt shelf file.now (S.failed_at shelves.old) (S.failed_at shelves.new) result }
{
    shelves.remove(shelf, file)?;
    shelves.write_at(shelf, file, 0, bytes)
}
