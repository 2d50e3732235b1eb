ghost use Rattle.std.specs.Prelude.{◌≡◌, ℕ, List, Some, None, length, IfOk, MatchOption};
ghost use Rattle.std.specs.Option.{option_map};
ghost use Rattle.outer_traits.specs.Causes.{HasOuterCause};
ghost use Rattle.folder_checks.specs.Told.{Told, IsShortFile};

use shelf_traits::{Outer, Shelves};
use std::alloc::Global;

/// How long a file is, or none where there is none.
pub fn file_len<S: Shelves>(file: &str, shelf: u8, shelves: &mut S) -> Outer<Option<u64>>
    ensures same { S.holds shelves.new ≡ S.holds shelves.old }
    ensures len { IfOk result (λ n. Told (S.holds shelves.old)
        (λ files. n ≡ option_map length (files shelf file.now))) }
    ensures cause { HasOuterCause (S.faults shelves.old) (S.faults shelves.new) result }
{
    shelves.len(shelf, file)
}

/// The whole of a file of at most so many bytes, or none where there is no such file.
pub fn read_short<S: Shelves>(
    alloc: Global,
    most: u64,
    file: &str,
    shelf: u8,
    shelves: &mut S,
) -> Outer<Option<Vec<u8>>>
    ensures same { S.holds shelves.new ≡ S.holds shelves.old }
    ensures bytes { IfOk result (λ found. Told (S.holds shelves.old)
        (λ files. MatchOption found ((bytes : List ℕ) → IsShortFile most (files shelf file.now) bytes → ⊥)
        (λ bytes. IsShortFile most (files shelf file.now) bytes.items))) }
    ensures cause { HasOuterCause (S.faults shelves.old) (S.faults shelves.new) result }
{
    let len = match file_len(file, shelf, shelves)? {
        None => return Ok(None),
        Some(len) => len,
    };
    if len > most {
        return Ok(None);
    }
    let mut bytes = vec![in alloc; 0u8; len as usize]?;
    let _count = shelves.read_at(shelf, file, 0, &mut bytes)?;
    Ok(Some(bytes))
}
