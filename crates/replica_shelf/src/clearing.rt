ghost use Rattle.std.specs.Prelude.{◌≡◌, OnOk, None};
ghost use Rattle.outer_traits.specs.Causes.{HasOuterCause};
ghost use Rattle.shelf_traits.specs.Files.{Both, OthersStay};
ghost use Rattle.folder_names.specs.Files.{IsOfAnImage};
ghost use Rattle.replica_shelf.specs.Saving.{IsClear, OnlyImages};

use crate::names::is_of_an_image;
use shelf_traits::{Outer, Shelves};

/// Removes the files of all images, of which heads other numbers may be of, and whose images may be gone.
pub(crate) fn clear<S: Shelves>(shelf: u8, shelves: &mut S) -> Outer<()>
    ensures ok { OnOk result (Both (S.holds shelves.old) (S.holds shelves.new) (λ old new. IsClear (new shelf))) }
    ensures others { Both (S.holds shelves.old) (S.holds shelves.new) (OnlyImages shelf) }
    ensures cause { HasOuterCause (S.faults shelves.old) (S.faults shelves.new) result }
{
    let names = shelves.files(shelf)?;
    for place in 0..names.len() {
        clear_file(names[place].as_str(), shelf, shelves)?;
    }
    Ok(())
}

/// Removes a file, where it is one of an image.
fn clear_file<S: Shelves>(file: &str, shelf: u8, shelves: &mut S) -> Outer<()>
    ensures ok { OnOk result (Both (S.holds shelves.old) (S.holds shelves.new)
        (λ old new. IsOfAnImage file.now → new shelf file.now ≡ None)) }
    ensures kept { OnOk result (Both (S.holds shelves.old) (S.holds shelves.new)
        (λ old new. old shelf file.now ≡ None → new shelf file.now ≡ None)) }
    ensures others { Both (S.holds shelves.old) (S.holds shelves.new) (OthersStay shelf file.now) }
    ensures only { Both (S.holds shelves.old) (S.holds shelves.new) (OnlyImages shelf) }
    ensures cause { HasOuterCause (S.faults shelves.old) (S.faults shelves.new) result }
{
    if !is_of_an_image(file.as_bytes()) {
        return Ok(());
    }
    shelves.remove(shelf, file)
}
