ghost use Rattle.std.specs.Prelude.{◌↔◌, IfOk, OnOk, IsTrue, Contains, map, string_bytes};
ghost use Rattle.shelf_memory.specs.Kept.{files_of, AddsName};
ghost use Rattle.shelf_traits.specs.Files.{Lists};

use crate::kept_file::KeptFile;
use std::alloc::{AllocError, Global};

/// The names of the files of a shelf, each once.
pub(crate) fn names_on(
    alloc: Global,
    files: &[KeptFile],
    shelf: u8,
) -> Result<Vec<String>, AllocError>
    ensures { IfOk result (λ names. Lists shelf (map string_bytes names.items) (files_of files.now)) }
{
    let mut names = Vec::new(alloc);
    for place in 0..files.len() {
        add_name(alloc, &files[place], shelf, &mut names)?;
    }
    Ok(names)
}

/// The name of a file comes behind these, where it stands on that shelf and is not among them.
fn add_name(
    alloc: Global,
    file: &KeptFile,
    shelf: u8,
    names: &mut Vec<String>,
) -> Result<(), AllocError>
    ensures { OnOk result
        (AddsName shelf file.now (map string_bytes names.old.items) (map string_bytes names.new.items)) }
{
    if file.shelf != shelf {
        return Ok(());
    }
    if has_name(names, file.name.as_str()) {
        return Ok(());
    }
    names.push(String::from_str(alloc, file.name.as_str())?)?;
    Ok(())
}

fn has_name(names: &[String], name: &str) -> bool
    ensures { IsTrue result ↔ Contains (map string_bytes names.now) name.now }
{
    for place in 0..names.len() {
        if names[place].as_bytes() == name.as_bytes() {
            return true;
        }
    }
    false
}
