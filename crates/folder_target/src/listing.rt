ghost use Rattle.std.specs.Prelude.{◌≡◌, ◌∷◌, ◌++◌, [], ℕ, List, IfOk, string_bytes};
ghost use Rattle.std.specs.List.Sorted.{IsSorted};
ghost use Rattle.std.specs.Path.{slash};
ghost use Rattle.std.specs.String.{string_cmp};
ghost use Rattle.folder_target.specs.ObjectNames.{AreListed};

use crate::object_names::{begins, is_object};
use std::alloc::{AllocError, Global};
use std::fs::{self, DirEntry, File, Files};
use std::io::{self, ErrorKind};
use std::path::Path;

/// What was found of a store, and what is still to be read.
#[derive(Drop)]
pub(crate) struct Listing {
    names: Vec<String>,
    folders: Vec<String>,
    alloc: Global,
}

impl Listing {
    pub(crate) fn new(alloc: Global) -> Self
        ensures { result.names.items ≡ [] }
    {
        Listing {
            names: Vec::new(alloc),
            folders: Vec::new(alloc),
            alloc,
        }
    }

    pub(crate) fn add_folder(&mut self, folder: &str) -> Result<(), AllocError>
        ensures { self.new.names ≡ self.old.names }
    {
        self.folders.push(String::from_str(self.alloc, folder)?)?;
        Ok(())
    }

    /// A folder that is still to be read, or none.
    pub(crate) fn next_folder(&mut self) -> Option<String>
        ensures { self.new.names ≡ self.old.names }
    {
        self.folders.pop()
    }

    /// The names, in the order of their bytes.
    pub(crate) fn into_names(self) -> Vec<String>
        ensures same { (prefix : List ℕ) → AreListed prefix self.names.items → AreListed prefix result.items }
        ensures sorted { IsSorted string_cmp result.items }
    {
        let mut names = self.names;
        names.sort_unstable();
        names
    }

    /// Adds what a folder has: the objects that begin so, and the folders in which such may lie.
    pub(crate) fn read<R: Files<File = File> + AllocGlobal + Clone + Drop>(
        &mut self,
        files: &R,
        path: Path<'_>,
        folder: &str,
        prefix: &str,
    ) -> io::Result<()>
        requires { AreListed prefix.now self.old.names.items }
        ensures { AreListed prefix.now self.new.names.items }
    {
        for entry in fs::read_dir(files, path)? {
            if let Some(entry) = named(entry)? {
                self.add_entry(&entry, folder, prefix)?;
            }
        }
        Ok(())
    }

    /// Adds an entry of a folder. A link is none that counts.
    fn add_entry<R: Files>(
        &mut self,
        entry: &DirEntry<R, Global>,
        folder: &str,
        prefix: &str,
    ) -> io::Result<()>
        requires { AreListed prefix.now self.old.names.items }
        ensures { AreListed prefix.now self.new.names.items }
    {
        let name = below(self.alloc, folder, entry.file_name())?;
        if !begins(name.as_str(), prefix) && !begins(prefix, name.as_str()) {
            return Ok(());
        }
        match entry.metadata() {
            Ok(found) if found.is_dir() => self.folders.push(name)?,
            Ok(found) if found.is_file() => self.add_file(name, prefix)?,
            Ok(_) => {}
            Err(e) if e.kind() == ErrorKind::NotFound => {}
            Err(e) => return Err(e),
        }
        Ok(())
    }

    /// Adds a file, where it is an object that begins so.
    fn add_file(&mut self, name: String, prefix: &str) -> Result<(), AllocError>
        requires { AreListed prefix.now self.old.names.items }
        ensures { AreListed prefix.now self.new.names.items }
    {
        if begins(name.as_str(), prefix) && is_object(name.as_str()) {
            self.names.push(name)?;
        }
        Ok(())
    }
}

/// The entry, unless its name is not UTF-8.
fn named<R: Files>(
    entry: io::Result<DirEntry<R, Global>>,
) -> io::Result<Option<DirEntry<R, Global>>> {
    match entry {
        Ok(entry) => Ok(Some(entry)),
        Err(e) if e.kind() == ErrorKind::InvalidFilename => Ok(None),
        Err(e) => Err(e),
    }
}

/// The name of an entry of a folder.
fn below(alloc: Global, folder: &str, entry: &str) -> Result<String, AllocError>
    ensures { IfOk result (λ name. string_bytes name ≡ folder.now ++ slash ∷ entry.now) }
{
    let mut name = String::from_str(alloc, folder)?;
    name.push('/')?;
    name.push_str(entry)?;
    Ok(name)
}
