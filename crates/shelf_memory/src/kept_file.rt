ghost use Rattle.std.specs.Prelude.{◌≡◌, ◌<◌, ◌≤◌, ◌+◌, ◌^◌, ◌++◌, length, take, drop, Some, false, All, MatchOption, OnOk};
ghost use Rattle.shelf_memory.specs.Kept.{Kept, is_file, IsAt, SameName};
ghost use Rattle.shelf_traits.specs.Files.{stretched, written, resized};

use std::alloc::AllocError;
use std::marker::Model;

/// A file on a shelf.
#[derive(Debug, Drop)]
pub struct KeptFile {
    pub(crate) shelf: u8,
    pub(crate) name: String,
    pub(crate) bytes: Vec<u8>,
}

impl Model for KeptFile {
    ghost use Rattle.std.specs.Prelude.{string_bytes};
    ghost use Rattle.shelf_memory.specs.Kept.{Kept};

    ghost Value = { Kept };

    ghost view = { λ f. record { shelf = f.shelf; name = string_bytes f.name; held = f.bytes.items } };
}

impl KeptFile {
    /// Puts bytes at a place, where they stand: no byte that stays is copied, but to make the file longer.
    pub(crate) fn write(&mut self, at: usize, bytes: &[u8]) -> Result<(), AllocError>
        requires { at + length bytes.now < 2 ^ 63 }
        ensures ok { OnOk result (self.new.held ≡ written (Some self.old.held) at bytes.now) }
        ensures named { SameName self.old self.new }
    {
        lengthen(&mut self.bytes, at + bytes.len())?;
        put_at(&mut self.bytes, at, bytes);
        Ok(())
    }

    /// Cuts the file, or puts zeros behind it.
    pub(crate) fn set_len(&mut self, len: usize) -> Result<(), AllocError>
        ensures ok { OnOk result (self.new.held ≡ resized (Some self.old.held) len) }
        ensures named { SameName self.old self.new }
    {
        self.bytes.resize(len, 0)
    }

    pub(crate) fn bytes(&self) -> &[u8]
        ensures { result.now ≡ self.now.held }
    {
        self.bytes.as_slice()
    }
}

/// Puts zeros behind the bytes, so that there are so many at least.
fn lengthen(bytes: &mut Vec<u8>, len: usize) -> Result<(), AllocError>
    ensures { OnOk result (bytes.new.items ≡ stretched bytes.old.items len) }
{
    if bytes.len() < len {
        bytes.resize(len, 0)?;
    }
    Ok(())
}

/// Puts bytes over those that stand at a place.
fn put_at(held: &mut [u8], at: usize, bytes: &[u8])
    requires { at + length bytes.now ≤ length held.old }
    ensures { held.new ≡ take at held.old ++ bytes.now ++ drop (at + length bytes.now) held.old }
{
    held[at..at + bytes.len()].copy_from_slice(bytes);
}

/// The place of the first file of that name on that shelf.
pub(crate) fn place_of(files: &[KeptFile], shelf: u8, name: &str) -> Option<usize>
    ensures { MatchOption result
        (All (λ k. is_file shelf name.now k ≡ false) files.now)
        (IsAt files.now shelf name.now) }
{
    for place in 0..files.len() {
        if is_file(&files[place], shelf, name) {
            return Some(place);
        }
    }
    None
}

fn is_file(file: &KeptFile, shelf: u8, name: &str) -> bool
    ensures { result ≡ is_file shelf name.now file.now }
{
    file.shelf == shelf && file.name.as_bytes() == name.as_bytes()
}
