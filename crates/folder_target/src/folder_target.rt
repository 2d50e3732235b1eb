ghost use Rattle.std.specs.Prelude.{◌≡◌, ◌≤◌, ◌↔◌, false, None, IfOk, IfErr, IfSome, OnOk, IsErr, MatchResult, length};
ghost use Rattle.std.specs.IoError.{error_kind};
ghost use Rattle.std.specs.List.Sorted.{IsSorted};
ghost use Rattle.std.specs.String.{string_cmp};
ghost use Rattle.outer_traits.specs.Causes.{HasOuterCause};
ghost use Rattle.folder_target.specs.ObjectNames.{IsObjectName, AreListed};

use crate::object_files::ObjectFiles;
use std::alloc::AllocError;
use std::fs::{File, Files};
use std::io::{self, ErrorKind};
use std::path::AsPath;
use target_traits::{Outer, OuterError, Target};

/// The backup store: a folder `backupstore` below a base, whose regular files are the objects. It tells nothing of what
/// it holds.
///
/// An object has the name of its path below the base. It is written to another file beside it, which takes its place
/// once it is whole and flushed; the name of that file ends in `.tmp`, as no object's does. A name that is no object's
/// is refused, which is a fault. Nothing that is a link is followed from the store's folder on: neither a folder nor a
/// file. The base has to be there; all other folders are made where they are missing.
#[derive(Drop)]
pub struct FolderTarget<R: Files> {
    objects: ObjectFiles<R>,
    faults: u64,
}

impl<R: Files<File = File> + AllocGlobal + Clone + Drop> FolderTarget<R> {
    pub fn new<P: AsPath>(files: R, base: P) -> Result<Self, AllocError>
        ensures faults { IfOk result (λ t. ⟦<FolderTarget<R> as Target>⟧.faults t ≡ 0) }
    {
        Ok(FolderTarget {
            objects: ObjectFiles::new(files, base)?,
            faults: 0,
        })
    }
}

/// An error of the system is a fault, unless it is want of memory.
fn counted<T>(faults: &mut u64, told: io::Result<T>) -> Outer<T>
    ensures value { MatchResult told (λ value. result ≡ Ok value) (λ _. IsErr result) }
    ensures memory { IfErr told (λ e. (result ≡ Err OuterError.NoMemory) ↔ (error_kind e ≡ ErrorKind.OutOfMemory)) }
    ensures cause { HasOuterCause faults.old faults.new result }
{
    match told {
        Ok(value) => Ok(value),
        Err(e) if e.kind() == ErrorKind::OutOfMemory => Err(OuterError::NoMemory),
        Err(_) => {
            *faults = faults.saturating_add(1);
            Err(OuterError::Failed)
        }
    }
}

impl<R: Files<File = File> + AllocGlobal + Clone + Drop> Target for FolderTarget<R> {
    ghost tells = { false };

    ghost holds = { λ _ _. None };

    ghost faults = { λ t. t.faults };

    fn get(&mut self, name: &str, most: usize) -> Outer<Option<Vec<u8>>>
        ensures named { OnOk result (IsObjectName name.now) }
        ensures bound { IfOk result (λ got. IfSome got (λ bytes. length bytes.items ≤ most)) }
        ensures cause { HasOuterCause (⟦<FolderTarget<R> as Target>⟧.faults self.old)
            (⟦<FolderTarget<R> as Target>⟧.faults self.new) result }
    {
        let told = self.objects.get(name, most);
        counted(&mut self.faults, told)
    }

    fn put(&mut self, name: &str, bytes: &[u8]) -> Outer<()>
        ensures named { OnOk result (IsObjectName name.now) }
        ensures cause { HasOuterCause (⟦<FolderTarget<R> as Target>⟧.faults self.old)
            (⟦<FolderTarget<R> as Target>⟧.faults self.new) result }
    {
        let told = self.objects.put(name, bytes);
        counted(&mut self.faults, told)
    }

    /// In the order of their bytes.
    fn list(&mut self, prefix: &str) -> Outer<Vec<String>>
        ensures objects { IfOk result (λ names. AreListed prefix.now names.items) }
        ensures order { IfOk result (λ names. IsSorted string_cmp names.items) }
        ensures cause { HasOuterCause (⟦<FolderTarget<R> as Target>⟧.faults self.old)
            (⟦<FolderTarget<R> as Target>⟧.faults self.new) result }
    {
        let told = self.objects.list(prefix);
        counted(&mut self.faults, told)
    }

    fn remove(&mut self, name: &str) -> Outer<()>
        ensures named { OnOk result (IsObjectName name.now) }
        ensures cause { HasOuterCause (⟦<FolderTarget<R> as Target>⟧.faults self.old)
            (⟦<FolderTarget<R> as Target>⟧.faults self.new) result }
    {
        let told = self.objects.remove(name);
        counted(&mut self.faults, told)
    }
}
