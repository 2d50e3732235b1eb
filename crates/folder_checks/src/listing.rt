ghost use Rattle.std.specs.Prelude.{◌≡◌, ℕ, List, IfOk, OnOk, map, length, string_bytes, Contains};
ghost use Rattle.outer_traits.specs.Causes.{HasOuterCause};
ghost use Rattle.shelf_traits.specs.Files.{Lists};
ghost use Rattle.vol_units.specs.Name.{IsName};
ghost use Rattle.folder_checks.specs.Told.{Told};
ghost use Rattle.folder_checks.specs.Snapshots.{AreRising, AreSnapshots};
ghost use Rattle.folder_checks.specs.Listing.{AddsSnapshot, HasSnapshots};

use chain_meta::{before, snapshot_name};
use shelf_traits::{Outer, Shelves};
use std::alloc::{AllocError, Global};

/// The names of the snapshots whose metadata stands on a shelf, in byte order.
pub fn snapshot_names<S: Shelves>(alloc: Global, shelf: u8, shelves: &mut S) -> Outer<Vec<String>>
    ensures same { S.holds shelves.new ≡ S.holds shelves.old }
    ensures told { IfOk result (λ names. Told (S.holds shelves.old)
        (λ files. AreSnapshots (files shelf) (map string_bytes names.items))) }
    ensures spelled { IfOk result (λ names.
        (name : List ℕ) → Contains (map string_bytes names.items) name → IsName name) }
    ensures rising { IfOk result (λ names. AreRising (map string_bytes names.items)) }
    ensures cause { HasOuterCause (S.faults shelves.old) (S.faults shelves.new) result }
{
    let files = list(shelf, shelves)?;
    let mut names = names_in(alloc, &files)?;
    names.sort()?;
    names.dedup();
    Ok(names)
}

/// The names of the files of a shelf.
fn list<S: Shelves>(shelf: u8, shelves: &mut S) -> Outer<Vec<String>>
    ensures same { S.holds shelves.new ≡ S.holds shelves.old }
    ensures names { IfOk result (λ names. Told (S.holds shelves.old)
        (λ files. Lists shelf (map string_bytes names.items) files)) }
    ensures cause { HasOuterCause (S.faults shelves.old) (S.faults shelves.new) result }
{
    shelves.files(shelf)
}

/// The names of the snapshots whose metadata is among these files.
fn names_in(alloc: Global, files: &[String]) -> Result<Vec<String>, AllocError>
    ensures { IfOk result (λ names.
        HasSnapshots (map string_bytes files.now) (length files.now) (map string_bytes names.items)) }
{
    let mut names = Vec::new(alloc);
    for place in 0..files.len() {
        add_snapshot(alloc, files[place].as_str(), &mut names)?;
    }
    Ok(names)
}

/// The name of the snapshot whose metadata that file is comes behind these, if it is one.
fn add_snapshot(alloc: Global, file: &str, names: &mut Vec<String>) -> Result<(), AllocError>
    ensures { OnOk result
        (AddsSnapshot file.now (map string_bytes names.old.items) (map string_bytes names.new.items)) }
{
    let image = match before(file.as_bytes(), b".meta") {
        None => return Ok(()),
        Some(image) => image,
    };
    let name = match snapshot_name(image) {
        None => return Ok(()),
        Some(name) => name,
    };
    names.push(name_text(alloc, name)?)?;
    Ok(())
}

/// A name as text.
fn name_text(alloc: Global, name: &[u8]) -> Result<String, AllocError>
    requires { IsName name.now }
    ensures { IfOk result (λ text. string_bytes text ≡ name.now) }
{
    String::from_str(alloc, str::from_utf8(name).unwrap())
}
