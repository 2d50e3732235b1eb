ghost use Rattle.std.specs.Prelude.{◌≡◌, ◌≤◌, length, IfOk, IfSome, OnOk, OnErr, string_bytes};
ghost use Rattle.std.specs.List.Sorted.{IsSorted};
ghost use Rattle.std.specs.Path.{path_buf_bytes, path_join};
ghost use Rattle.std.specs.String.{string_cmp};
ghost use Rattle.folder_target.specs.ObjectNames.{IsObjectName, AreListed};

use crate::listing::Listing;
use crate::object_names::{STORE, beside_name, is_object};
use std::alloc::{AllocError, Global};
use std::collections::BTreeSet;
use std::fs::{self, File, Files};
use std::io::{self, ErrorKind, Read, Write};
use std::os::unix::fs::MetadataExt;
use std::path::{AsPath, Path, PathBuf};

/// The objects of a store as files below a base.
#[derive(Drop)]
pub(crate) struct ObjectFiles<R: Files> {
    files: R,
    base: String,
    /// The folders that were flushed to be there.
    kept: BTreeSet<String>,
}

impl<R: Files<File = File> + AllocGlobal + Clone + Drop> ObjectFiles<R> {
    pub(crate) fn new<P: AsPath>(files: R, base: P) -> Result<Self, AllocError>
        ensures { IfSome (P.path_text base) (λ text. IfOk result (λ objects. string_bytes objects.base ≡ text)) }
    {
        let base = String::from_str(files.alloc(), base.path_text())?;
        let kept = BTreeSet::new(files.alloc());
        Ok(ObjectFiles { files, base, kept })
    }

    /// The first bytes of an object, at most so many, or none where there is no such object.
    pub(crate) fn get(&self, name: &str, most: usize) -> io::Result<Option<Vec<u8>>>
        ensures named { OnOk result (IsObjectName name.now) }
        ensures bound { IfOk result (λ got. IfSome got (λ bytes. length bytes.items ≤ most)) }
    {
        check(name)?;
        if !self.has_folders(name)? {
            return Ok(None);
        }
        match open_there(&self.files, self.path(name)?.as_path())? {
            None => Ok(None),
            Some(mut file) => Ok(Some(front_of(self.files.alloc(), &mut file, most)?)),
        }
    }

    /// Makes an object hold these bytes. Whoever reads it finds those or the ones before, and both are whole.
    pub(crate) fn put(&mut self, name: &str, bytes: &[u8]) -> io::Result<()>
        ensures { OnOk result (IsObjectName name.now) }
    {
        check(name)?;
        self.keep_folders(name)?;
        let path = self.path(name)?;
        let beside = self.path(beside_name(self.files.alloc(), name)?.as_str())?;
        let told = self.replace(path.as_path(), beside.as_path(), bytes);
        if told.is_err() {
            let _ = remove_there(&self.files, beside.as_path());
        }
        told?;
        sync_entry(&self.files, path.as_path())
    }

    /// Writes another file, which takes the place of the first once all of it is on the disk.
    fn replace(&self, path: Path<'_>, beside: Path<'_>, bytes: &[u8]) -> io::Result<()> {
        // A run that was cut off may have left one.
        remove_there(&self.files, beside)?;
        let mut file = File::create_new(&self.files, beside)?;
        file.write_all(bytes)?;
        file.sync_all()?;
        fs::rename(&self.files, beside, path)
    }

    /// Removes an object or a link, where there is one.
    pub(crate) fn remove(&mut self, name: &str) -> io::Result<()>
        ensures { OnOk result (IsObjectName name.now) }
    {
        check(name)?;
        if !self.has_folders(name)? {
            return Ok(());
        }
        let path = self.path(name)?;
        remove_there(&self.files, path.as_path())?;
        // Also where there was none: a call before may have failed to flush that it is gone.
        sync_entry(&self.files, path.as_path())
    }

    /// The objects that begin so, in the order of their bytes.
    pub(crate) fn list(&self, prefix: &str) -> io::Result<Vec<String>>
        ensures objects { IfOk result (λ names. AreListed prefix.now names.items) }
        ensures order { IfOk result (λ names. IsSorted string_cmp names.items) }
    {
        let mut listing = Listing::new(self.files.alloc());
        if self.has_folder(STORE)? {
            listing.add_folder(STORE)?;
        }
        for _ in 0..u64::MAX {
            let Some(folder) = listing.next_folder() else {
                break;
            };
            let path = self.path(folder.as_str())?;
            listing.read(&self.files, path.as_path(), folder.as_str(), prefix)?;
        }
        Ok(listing.into_names())
    }

    /// Where an object or a folder lies.
    fn path(&self, name: &str) -> Result<PathBuf, AllocError>
        ensures { IfOk result (λ path. path_buf_bytes path ≡ path_join (string_bytes self.now.base) name.now) }
    {
        let mut path = PathBuf::from_str(self.files.alloc(), self.base.as_str())?;
        path.push(name)?;
        Ok(path)
    }

    /// Whether a folder is there. Anything else at its place, a link too, is an error.
    fn has_folder(&self, folder: &str) -> io::Result<bool> {
        match fs::symlink_metadata(&self.files, &self.path(folder)?) {
            Ok(found) if found.is_dir() => Ok(true),
            Ok(_) => Err(not_of_a_store()),
            Err(e) if e.kind() == ErrorKind::NotFound => Ok(false),
            Err(e) => Err(e),
        }
    }

    /// Whether all folders are there that an object lies in.
    fn has_folders(&self, name: &str) -> io::Result<bool> {
        for place in 0..name.len() {
            if let Some(folder) = folder_at(name, place) {
                if !self.has_folder(folder)? {
                    return Ok(false);
                }
            }
        }
        Ok(true)
    }

    /// Makes the folders that an object lies in, where they are missing, and flushes that they are there.
    fn keep_folders(&mut self, name: &str) -> io::Result<()> {
        for place in 0..name.len() {
            if let Some(folder) = folder_at(name, place) {
                self.keep_folder(folder)?;
            }
        }
        Ok(())
    }

    fn keep_folder(&mut self, folder: &str) -> io::Result<()> {
        let was_there = self.has_folder(folder)?;
        // Also one that was there is flushed once: who made it may have been cut off before.
        if was_there && self.kept.contains(folder) {
            return Ok(());
        }
        let path = self.path(folder)?;
        if !was_there {
            fs::create_dir(&self.files, &path)?;
        }
        sync_entry(&self.files, path.as_path())?;
        self.kept
            .insert(String::from_str(self.files.alloc(), folder)?)?;
        Ok(())
    }
}

/// Refuses what is no object's name.
fn check(name: &str) -> io::Result<()>
    ensures ok { OnOk result (IsObjectName name.now) }
    ensures err { OnErr result (IsObjectName name.now → ⊥) }
{
    if is_object(name) {
        Ok(())
    } else {
        Err(io::Error::from(ErrorKind::InvalidFilename))
    }
}

/// What stands before a slash at that place.
fn folder_at(name: &str, place: usize) -> Option<&str> {
    match name.split_at_checked(place) {
        Some((folder, rest)) if rest.starts_with('/') => Some(folder),
        _ => None,
    }
}

/// Opens a regular file, or tells that there is none. It opens nothing else, and follows no link.
fn open_there<R: Files<File = File>>(files: &R, path: Path<'_>) -> io::Result<Option<File>> {
    let named = match fs::symlink_metadata(files, path) {
        Ok(named) if named.is_file() => named,
        Ok(_) => return Err(not_of_a_store()),
        Err(e) if e.kind() == ErrorKind::NotFound => return Ok(None),
        Err(e) => return Err(e),
    };
    let file = File::open(files, path)?;
    // A link may have come to stand at the name since.
    let found = file.metadata()?;
    if found.dev() != named.dev() || found.ino() != named.ino() {
        return Err(not_of_a_store());
    }
    Ok(Some(file))
}

fn not_of_a_store() -> io::Error {
    io::Error::new(
        ErrorKind::InvalidInput,
        "neither a file nor a folder of a store",
    )
}

/// The first bytes of a file, at most so many.
fn front_of(alloc: Global, file: &mut File, most: usize) -> io::Result<Vec<u8>>
    ensures { IfOk result (λ bytes. length bytes.items ≤ most) }
{
    let count = file.metadata()?.len().min(most as u64) as usize;
    let mut bytes = vec![in alloc; 0u8; count]?;
    file.read_exact(&mut bytes)?;
    Ok(bytes)
}

/// Removes a file or a link, where there is one.
fn remove_there<R: Files>(files: &R, path: Path<'_>) -> io::Result<()> {
    match fs::remove_file(files, path) {
        Err(e) if e.kind() == ErrorKind::NotFound => Ok(()),
        told => told,
    }
}

/// Flushes whether the folder above a path has an entry there.
fn sync_entry<R: Files<File = File>>(files: &R, path: Path<'_>) -> io::Result<()> {
    let above = match path.parent() {
        Some(above) if !above.as_str().is_empty() => above.as_str(),
        _ => ".",
    };
    File::open(files, above)?.sync_all()
}
