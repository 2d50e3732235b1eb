ghost use Rattle.std.specs.Prelude.{◌≡◌, ◌≢◌, ◌↔◌, IfOk, IfSome, OnOk, IsTrue, EachIndex, slice_index, string_bytes};
ghost use Rattle.std.specs.Path.{slash, with_separator};
ghost use Rattle.outer_real.specs.FolderPaths.{IsPlain, folder_at, file_at};

use std::alloc::{AllocError, Global};
use std::fmt::Write;
use std::io::{self, ErrorKind};
use std::path::{AsPath, Path, PathBuf};

/// Where the files of shelves lie.
#[derive(Drop)]
pub(crate) struct FolderPaths {
    /// The folder of all shelves; it ends in a slash, or is empty.
    base: String,
    /// The path that was made last. Its room serves for the next, so that few calls take memory.
    path: String,
}

impl FolderPaths {
    pub(crate) fn new<P: AsPath>(alloc: Global, base: P) -> Result<Self, AllocError>
        ensures { IfSome (P.path_text base) (λ text.
            IfOk result (λ paths. string_bytes paths.base ≡ with_separator text)) }
    {
        Ok(FolderPaths {
            base: with_slash(alloc, base.path_text())?,
            path: String::new(alloc),
        })
    }

    /// The folder of all shelves.
    pub(crate) fn base(&self) -> &str {
        or_here(self.base.as_str())
    }

    /// The folder that the base lies in.
    pub(crate) fn above(&self) -> &str {
        match Path::new(self.base.as_str()).parent() {
            Some(above) => or_here(above.as_str()),
            None => self.base(),
        }
    }

    /// The folder of a shelf.
    pub(crate) fn folder(&mut self, shelf: u8) -> Result<&str, AllocError>
        ensures { IfOk result (λ path. path.now ≡ folder_at (string_bytes self.old.base) shelf) }
    {
        self.put_folder(shelf)?;
        Ok(self.path.as_str())
    }

    /// Makes that path.
    fn put_folder(&mut self, shelf: u8) -> Result<(), AllocError>
        ensures { OnOk result (string_bytes self.new.path ≡ folder_at (string_bytes self.old.base) shelf) }
    {
        self.path.clear();
        self.path.push_str(self.base.as_str())?;
        write!(self.path, "r{shelf}")
    }

    /// A file of a shelf. A name that might lead out of the folder is refused.
    pub(crate) fn file(&mut self, shelf: u8, name: &str) -> io::Result<&str>
        ensures path { IfOk result (λ path. path.now ≡ file_at (string_bytes self.old.base) shelf name.now) }
        ensures plain { OnOk result (IsPlain name.now) }
    {
        if !is_plain(name) {
            return Err(io::Error::from(ErrorKind::InvalidFilename));
        }
        self.put_folder(shelf)?;
        self.path.push('/')?;
        self.path.push_str(name)?;
        Ok(self.path.as_str())
    }
}

/// The path with a slash at its end, unless it is empty.
#[tactic(auto, unfolding(std::specs::Path::path_join))]
fn with_slash(alloc: Global, path: &str) -> Result<String, AllocError>
    ensures { IfOk result (λ text. string_bytes text ≡ with_separator path.now) }
{
    let mut path = PathBuf::from_str(alloc, path)?;
    path.push("")?;
    Ok(path.into_string())
}

/// The path, or the folder that the program runs in where it is empty.
fn or_here(path: &str) -> &str {
    if path.is_empty() { "." } else { path }
}

/// Whether it is the name of an entry of a folder.
fn is_plain(name: &str) -> bool
    ensures { IsTrue result ↔ IsPlain name.now }
{
    match name {
        "" | "." | ".." => false,
        _ => has_no_slash(name),
    }
}

fn has_no_slash(name: &str) -> bool
    ensures { IsTrue result ↔ EachIndex name.now (λ k. slice_index name.now k ≢ slash) }
{
    !name.contains('/')
}
