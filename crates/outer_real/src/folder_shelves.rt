ghost use Rattle.std.specs.Prelude.{◌≡◌, ◌↔◌, None, IfOk, IfErr, MatchResult, IsErr};
ghost use Rattle.std.specs.IoError.{error_kind};
ghost use Rattle.outer_traits.specs.Causes.{HasOuterCause};

use crate::folder_files::FolderFiles;
use shelf_traits::{Outer, OuterError, Shelves};
use std::alloc::AllocError;
use std::fs::{File, Files};
use std::io::{self, ErrorKind};
use std::path::AsPath;

/// Shelves that are folders: shelf 7 is the folder `r7` below the base. They tell nothing of what they hold.
///
/// A folder is made by the first write to it, and the base with it, where the folder above the base is there. The files
/// of a shelf are the regular files of its folder: sub-folders, links and names that are not UTF-8 are not listed. A
/// file that is a link or anything else but a regular file is not opened, which is a fault; the folders themselves may
/// be links. A shelf of which a file or a folder was not flushed when it should be syncs no more.
#[derive(Drop)]
pub struct FolderShelves<R: Files> {
    folders: FolderFiles<R>,
    faults: u64,
}

impl<R: Files<File = File> + AllocGlobal + Clone + Drop> FolderShelves<R> {
    pub fn new<P: AsPath>(files: R, base: P) -> Result<Self, AllocError>
        ensures faults { IfOk result (λ s. ⟦<FolderShelves<R> as Shelves>⟧.faults s ≡ 0) }
    {
        Ok(FolderShelves {
            folders: FolderFiles::new(files, base)?,
            faults: 0,
        })
    }
}

/// An error of the system is a fault, unless it is want of memory.
fn counted<T>(faults: &mut u64, told: io::Result<T>) -> Outer<T>
    ensures value { MatchResult told (λ value. result ≡ Ok value) (λ _. IsErr result) }
    ensures memory { IfErr told (λ e. (result ≡ Err OuterError.NoMemory) ↔ (error_kind e ≡ ErrorKind.OutOfMemory)) }
    ensures cause { HasOuterCause faults.old faults.new result }
{
    match told {
        Ok(value) => Ok(value),
        Err(e) if e.kind() == ErrorKind::OutOfMemory => Err(OuterError::NoMemory),
        Err(_) => {
            *faults = faults.saturating_add(1);
            Err(OuterError::Failed)
        }
    }
}

impl<R: Files<File = File> + AllocGlobal + Clone + Drop> Shelves for FolderShelves<R> {
    ghost holds = { λ _. None };

    ghost faults = { λ s. s.faults };

    ghost failed_at = { λ _. None };

    fn files(&mut self, shelf: u8) -> Outer<Vec<String>> {
        let told = self.folders.names(shelf);
        counted(&mut self.faults, told)
    }

    fn len(&mut self, shelf: u8, file: &str) -> Outer<Option<u64>> {
        let told = self.folders.len(shelf, file);
        counted(&mut self.faults, told)
    }

    fn read_at(&mut self, shelf: u8, file: &str, at: u64, into: &mut [u8]) -> Outer<usize> {
        let told = self.folders.read_at(shelf, file, at, into);
        counted(&mut self.faults, told)
    }

    fn write_at(&mut self, shelf: u8, file: &str, at: u64, bytes: &[u8]) -> Outer<()> {
        let told = self.folders.write_at(shelf, file, at, bytes);
        counted(&mut self.faults, told)
    }

    fn set_len(&mut self, shelf: u8, file: &str, len: u64) -> Outer<()> {
        let told = self.folders.set_len(shelf, file, len);
        counted(&mut self.faults, told)
    }

    fn remove(&mut self, shelf: u8, file: &str) -> Outer<()> {
        let told = self.folders.remove(shelf, file);
        counted(&mut self.faults, told)
    }

    fn sync(&mut self, shelf: u8) -> Outer<()> {
        let told = self.folders.sync(shelf);
        counted(&mut self.faults, told)
    }
}
