ghost use Rattle.std.specs.Prelude.{◌≡◌, ◌<◌, ◌+◌, ◌^◌, length, vec_len, IfOk, [], Some, None, MatchOption, OnOk};
ghost use Rattle.shelf_memory.specs.Kept.{files_of, IsAt, Makes};
ghost use Rattle.shelf_traits.specs.Files.{Becomes, OthersStay, written, resized};

use crate::kept_file::{KeptFile, place_of};
use crate::names::names_on;
use shelf_traits::{Outer, Shelves};
use std::alloc::{AllocError, Global};
use std::marker::Model;

/// Shelves that keep what they are given and never fail, though memory may run out.
#[derive(Debug, Drop)]
pub struct NoFaultShelves {
    files: Vec<KeptFile>,
    alloc: Global,
}

impl Model for NoFaultShelves {
    ghost use Rattle.std.specs.Prelude.{List};
    ghost use Rattle.shelf_memory.specs.Kept.{Kept};

    ghost Value = { List Kept };

    ghost view = { λ s. s.files.items };
}

impl NoFaultShelves {
    pub fn new(alloc: Global) -> Self
        ensures { result ≡ [] }
    {
        NoFaultShelves {
            files: Vec::new(alloc),
            alloc,
        }
    }

    /// What the file holds, or none where there is none.
    #[tactic(auto, using(crate::proofs::KeptLemmas::files_at, crate::proofs::KeptLemmas::files_nowhere))]
    pub fn held(&self, shelf: u8, name: &str) -> Option<&[u8]>
        ensures { MatchOption result
            (files_of self.now shelf name.now ≡ None)
            (λ bytes. files_of self.now shelf name.now ≡ Some bytes.now) }
    {
        match place_of(&self.files, shelf, name) {
            None => None,
            Some(place) => Some(self.files[place].bytes()),
        }
    }

    /// Where the file is. It is made, and empty, where there was none.
    fn place_for(&mut self, shelf: u8, name: &str) -> Result<usize, AllocError>
        ensures at { IfOk result (IsAt self.new shelf name.now) }
        ensures made { OnOk result (Makes shelf name.now (files_of self.old) (files_of self.new)) }
        ensures others { OthersStay shelf name.now (files_of self.old) (files_of self.new) }
    {
        if let Some(place) = place_of(&self.files, shelf, name) {
            return Ok(place);
        }
        let place = self.files.len();
        let name = String::from_str(self.alloc, name)?;
        let bytes = Vec::new(self.alloc);
        self.files.push(KeptFile { shelf, name, bytes })?;
        Ok(place)
    }

    /// There is no such file.
    fn drop_file(&mut self, shelf: u8, name: &str)
        ensures { Becomes shelf name.now None (files_of self.old) (files_of self.new) }
    {
        while let Some(place) = place_of(&self.files, shelf, name) {
            let _ = self.files.remove(place);
        }
    }
}

impl Shelves for NoFaultShelves {
    ghost holds = { λ s. Some (files_of s) };

    ghost faults = { λ _. 0 };

    ghost failed_at = { λ _. None };

    fn files(&mut self, shelf: u8) -> Outer<Vec<String>> {
        Ok(names_on(self.alloc, &self.files, shelf)?)
    }

    fn len(&mut self, shelf: u8, file: &str) -> Outer<Option<u64>> {
        match self.held(shelf, file) {
            None => Ok(None),
            Some(bytes) => Ok(Some(bytes.len() as u64)),
        }
    }

    fn read_at(&mut self, shelf: u8, file: &str, at: u64, into: &mut [u8]) -> Outer<usize> {
        let bytes = match self.held(shelf, file) {
            None => return Ok(0),
            Some(bytes) => bytes,
        };
        if at >= bytes.len() as u64 {
            return Ok(0);
        }
        let rest = &bytes[at as usize..];
        let count = rest.len().min(into.len());
        into[..count].copy_from_slice(&rest[..count]);
        Ok(count)
    }

    fn write_at(&mut self, shelf: u8, file: &str, at: u64, bytes: &[u8]) -> Outer<()> {
        let place = self.place_for(shelf, file)?;
        Ok(self.files[place].write(at as usize, bytes)?)
    }

    fn set_len(&mut self, shelf: u8, file: &str, len: u64) -> Outer<()> {
        let place = self.place_for(shelf, file)?;
        Ok(self.files[place].set_len(len as usize)?)
    }

    fn remove(&mut self, shelf: u8, file: &str) -> Outer<()> {
        self.drop_file(shelf, file);
        Ok(())
    }

    fn sync(&mut self, _shelf: u8) -> Outer<()> {
        Ok(())
    }
}
