ghost use Rattle.std.specs.Prelude.{◌≡◌, ◌↔◌, ◌⊎◌, ◌≤◌, IfOk, IsTrue, length, string_bytes};

use std::fs::{self, File, Files, OpenOptions};
use std::io::{self, ErrorKind};
use std::os::unix::fs::{FileExt, MetadataExt};

/// What a file is opened for.
#[derive(Clone, Copy, PartialEq, Eq)]
pub(crate) enum Access {
    Read,
    Write,
}

/// A file of a shelf that is open.
#[derive(Drop)]
pub(crate) struct OpenFile {
    pub(crate) shelf: u8,
    pub(crate) name: String,
    pub(crate) access: Access,
    pub(crate) file: File,
}

impl OpenFile {
    /// Whether it is that file.
    pub(crate) fn is_of(&self, shelf: u8, name: &str) -> bool
        ensures { IsTrue result ↔ ((self.now.shelf ≡ shelf) × (string_bytes self.now.name ≡ name.now)) }
    {
        self.shelf == shelf && self.name.as_str() == name
    }

    /// Whether it is open for this too.
    pub(crate) fn serves(&self, access: Access) -> bool
        ensures { IsTrue result ↔ ((access ≡ Access.Read) ⊎ (self.now.access ≡ Access.Write)) }
    {
        access == Access::Read || self.access == Access::Write
    }

    /// Flushes what was written to it.
    pub(crate) fn flush(&self) -> io::Result<()> {
        match self.access {
            Access::Read => Ok(()),
            Access::Write => self.file.sync_all(),
        }
    }
}

/// Opens a regular file, or tells that there is none. It opens nothing else, and follows no link.
pub(crate) fn open_there<R: Files<File = File>>(
    files: &R,
    path: &str,
    access: Access,
) -> io::Result<Option<File>> {
    let named = match fs::symlink_metadata(files, path) {
        Ok(named) => named,
        Err(e) if e.kind() == ErrorKind::NotFound => return Ok(None),
        Err(e) => return Err(e),
    };
    if !named.is_file() {
        return Err(no_file());
    }
    let file = OpenOptions::new()
        .read(true)
        .write(access == Access::Write)
        .open(files, path)?;
    // A link may have come to stand at the name since.
    let found = file.metadata()?;
    if found.dev() != named.dev() || found.ino() != named.ino() {
        return Err(no_file());
    }
    Ok(Some(file))
}

/// Makes a file, where nothing has its name, not even a link.
pub(crate) fn make<R: Files<File = File>>(files: &R, path: &str) -> io::Result<File> {
    OpenOptions::new()
        .read(true)
        .write(true)
        .create_new(true)
        .open(files, path)
}

pub(crate) fn no_file() -> io::Error {
    io::Error::new(ErrorKind::InvalidInput, "not a regular file")
}

/// Reads from a place on, until there is no more, or no more room.
pub(crate) fn read_all_at(file: &File, at: u64, into: &mut [u8]) -> io::Result<usize>
    ensures { IfOk result (λ count. count ≤ length into.new) }
{
    let mut count = 0;
    for _ in 0..u64::MAX {
        if count == into.len() {
            break;
        }
        match file.read_at(&mut into[count..], at.saturating_add(count as u64)) {
            Ok(0) => break,
            Ok(more) => count += more,
            Err(e) if e.kind() == ErrorKind::Interrupted => {}
            Err(e) => return Err(e),
        }
    }
    Ok(count)
}
