ghost use Rattle.std.specs.Prelude.{◌≡◌, ◌≤◌, IfOk, IfSome, OnOk, OnErr, length, slice_index_or, true, false};
ghost use Rattle.outer_real.specs.FolderFiles.{ServesCall, MarksStay};

use crate::folder_paths::FolderPaths;
use crate::open_file::{Access, OpenFile, make, no_file, open_there, read_all_at};
use std::alloc::{AllocError, Global};
use std::fs::{self, DirEntry, File, Files};
use std::io::{self, ErrorKind};
use std::os::unix::fs::FileExt;
use std::path::AsPath;

/// How many shelves have a number.
const SHELVES: usize = 256;

/// The end of all places in files.
const PLACES: u64 = 1 << 63;

/// The files of folders, one folder a shelf.
#[derive(Drop)]
pub(crate) struct FolderFiles<R: Files> {
    files: R,
    paths: FolderPaths,
    /// The file that was used last. What was written to it is flushed before it is put away.
    opened: Option<OpenFile>,
    /// Of each shelf, whether something of it was not flushed when it should be.
    unflushed: [bool; SHELVES],
    /// Whether a folder was made that the base was not flushed with yet.
    made_folder: bool,
    /// Whether the base was made, and the folder that it lies in was not flushed yet.
    made_base: bool,
}

impl<R: Files<File = File> + AllocGlobal + Clone + Drop> FolderFiles<R> {
    pub(crate) fn new<P: AsPath>(files: R, base: P) -> Result<Self, AllocError> {
        let paths = FolderPaths::new(files.alloc(), base)?;
        Ok(FolderFiles {
            files,
            paths,
            opened: None,
            unflushed: [false; SHELVES],
            made_folder: false,
            made_base: false,
        })
    }

    /// The regular files of a shelf. Of a folder that is not there there are none.
    pub(crate) fn names(&mut self, shelf: u8) -> io::Result<Vec<String>> {
        let alloc = self.files.alloc();
        let mut names = Vec::new(alloc);
        let entries = match fs::read_dir(&self.files, self.paths.folder(shelf)?) {
            Ok(entries) => entries,
            Err(e) if e.kind() == ErrorKind::NotFound => return Ok(names),
            Err(e) => return Err(e),
        };
        for entry in entries {
            if let Some(name) = file_name(alloc, entry)? {
                names.push(name)?;
            }
        }
        Ok(names)
    }

    /// How long a file is, or none where there is none.
    pub(crate) fn len(&mut self, shelf: u8, name: &str) -> io::Result<Option<u64>> {
        match fs::symlink_metadata(&self.files, self.paths.file(shelf, name)?) {
            Ok(found) if found.is_file() => Ok(Some(found.len())),
            Ok(_) => Err(no_file()),
            Err(e) if e.kind() == ErrorKind::NotFound => Ok(None),
            Err(e) => Err(e),
        }
    }

    /// Reads from a place on, as much as there is and there is room for.
    pub(crate) fn read_at(
        &mut self,
        shelf: u8,
        name: &str,
        at: u64,
        into: &mut [u8],
    ) -> io::Result<usize>
        ensures { IfOk result (λ count. count ≤ length into.new) }
    {
        if at >= PLACES {
            return Ok(0);
        }
        let Some(opened) = self.open_to_read(shelf, name)? else {
            return Ok(0);
        };
        let told = read_all_at(&opened.file, at, into);
        self.opened = Some(opened);
        told
    }

    /// Writes all bytes at a place.
    pub(crate) fn write_at(
        &mut self,
        shelf: u8,
        name: &str,
        at: u64,
        bytes: &[u8],
    ) -> io::Result<()> {
        let opened = self.open_to_write(shelf, name)?;
        let told = opened.file.write_all_at(bytes, at);
        self.opened = Some(opened);
        told
    }

    /// Cuts a file, or lengthens it by a hole.
    pub(crate) fn set_len(&mut self, shelf: u8, name: &str, len: u64) -> io::Result<()> {
        let opened = self.open_to_write(shelf, name)?;
        let told = opened.file.set_len(len);
        self.opened = Some(opened);
        told
    }

    /// Removes a file or a link, where there is one.
    pub(crate) fn remove(&mut self, shelf: u8, name: &str) -> io::Result<()> {
        match fs::remove_file(&self.files, self.paths.file(shelf, name)?) {
            Ok(()) => {}
            Err(e) if e.kind() == ErrorKind::NotFound => {}
            Err(e) => return Err(e),
        }
        // Nothing of a file that is gone has to be flushed.
        if let Some(opened) = self.opened.take() {
            if !opened.is_of(shelf, name) {
                self.opened = Some(opened);
            }
        }
        Ok(())
    }

    /// Flushes what was written to a shelf, and which files it has.
    pub(crate) fn sync(&mut self, shelf: u8) -> io::Result<()>
        ensures ok { OnOk result (slice_index_or self.old.unflushed shelf true ≡ false) }
        ensures err { OnErr result (slice_index_or self.new.unflushed shelf false ≡ true) }
    {
        if let Some(opened) = self.opened.take() {
            self.put_away(opened);
        }
        if self.unflushed[usize::from(shelf)] {
            return Err(io::Error::other("a file was not flushed"));
        }
        let told = self.sync_folders(shelf);
        self.unflushed[usize::from(shelf)] = told.is_err();
        told
    }

    /// Flushes the folder of a shelf, and the folders above it that have a new one.
    fn sync_folders(&mut self, shelf: u8) -> io::Result<()> {
        sync_folder(&self.files, self.paths.folder(shelf)?)?;
        if self.made_folder {
            sync_folder(&self.files, self.paths.base())?;
            self.made_folder = false;
        }
        if self.made_base {
            sync_folder(&self.files, self.paths.above())?;
            self.made_base = false;
        }
        Ok(())
    }

    /// The file that is open, where it is that one, and open for this too. Another is put away.
    fn take_opened(&mut self, shelf: u8, name: &str, access: Access) -> Option<OpenFile>
        ensures { IfSome result (λ opened. ServesCall opened shelf name.now access) }
    {
        let opened = self.opened.take()?;
        if opened.is_of(shelf, name) && opened.serves(access) {
            return Some(opened);
        }
        self.put_away(opened);
        None
    }

    /// Flushes a file and closes it. Where it cannot be flushed, its shelf syncs no more.
    fn put_away(&mut self, opened: OpenFile)
        ensures { MarksStay self.old.unflushed self.new.unflushed }
    {
        if opened.flush().is_err() {
            self.unflushed[usize::from(opened.shelf)] = true;
        }
    }

    /// A file, where there is one.
    fn open_to_read(&mut self, shelf: u8, name: &str) -> io::Result<Option<OpenFile>>
        ensures { IfOk result (λ there. IfSome there (λ opened. ServesCall opened shelf name.now Access.Read)) }
    {
        if let Some(opened) = self.take_opened(shelf, name, Access::Read) {
            return Ok(Some(opened));
        }
        let path = self.paths.file(shelf, name)?;
        let Some(file) = open_there(&self.files, path, Access::Read)? else {
            return Ok(None);
        };
        Ok(Some(OpenFile {
            shelf,
            name: String::from_str(self.files.alloc(), name)?,
            access: Access::Read,
            file,
        }))
    }

    /// A file, which is made where there is none.
    fn open_to_write(&mut self, shelf: u8, name: &str) -> io::Result<OpenFile>
        ensures { IfOk result (λ opened. ServesCall opened shelf name.now Access.Write) }
    {
        if let Some(opened) = self.take_opened(shelf, name, Access::Write) {
            return Ok(opened);
        }
        let own_name = String::from_str(self.files.alloc(), name)?;
        let path = self.paths.file(shelf, name)?;
        let file = match open_there(&self.files, path, Access::Write)? {
            Some(file) => file,
            None => self.make_file(shelf, name)?,
        };
        Ok(OpenFile {
            shelf,
            name: own_name,
            access: Access::Write,
            file,
        })
    }

    /// A new file, with its folder where there is none.
    fn make_file(&mut self, shelf: u8, name: &str) -> io::Result<File> {
        match make(&self.files, self.paths.file(shelf, name)?) {
            Err(e) if e.kind() == ErrorKind::NotFound => {}
            told => return told,
        }
        self.make_folder(shelf)?;
        make(&self.files, self.paths.file(shelf, name)?)
    }

    /// Makes the folder of a shelf, with the base where there is none.
    fn make_folder(&mut self, shelf: u8) -> io::Result<()> {
        match fs::create_dir(&self.files, self.paths.folder(shelf)?) {
            Err(e) if e.kind() == ErrorKind::NotFound => {
                fs::create_dir(&self.files, self.paths.base())?;
                self.made_base = true;
                fs::create_dir(&self.files, self.paths.folder(shelf)?)?;
            }
            told => told?,
        }
        self.made_folder = true;
        Ok(())
    }
}

/// The name of an entry that is a regular file. One that is not UTF-8 is none.
fn file_name<R: Files + Drop>(
    alloc: Global,
    entry: io::Result<DirEntry<R, Global>>,
) -> io::Result<Option<String>> {
    let entry = match entry {
        Ok(entry) => entry,
        Err(e) if e.kind() == ErrorKind::InvalidFilename => return Ok(None),
        Err(e) => return Err(e),
    };
    match entry.metadata() {
        Ok(found) if found.is_file() => Ok(Some(String::from_str(alloc, entry.file_name())?)),
        Ok(_) => Ok(None),
        Err(e) if e.kind() == ErrorKind::NotFound => Ok(None),
        Err(e) => Err(e),
    }
}

/// Flushes which entries a folder has. One that is not there has none.
fn sync_folder<R: Files<File = File>>(files: &R, folder: &str) -> io::Result<()> {
    match File::open(files, folder) {
        Ok(opened) => opened.sync_all(),
        Err(e) if e.kind() == ErrorKind::NotFound => Ok(()),
        Err(e) => Err(e),
    }
}
