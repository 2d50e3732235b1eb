ghost use Rattle.std.specs.Prelude.{◌≡◌, ◌+◌, ◌^◌, ◌<◌, ◌≤◌, length, IfOk, vec_len};
ghost use Rattle.std.specs.Io.KnownBytes.{Consumes, IsAtEnd};
ghost use Rattle.outer_traits.specs.Causes.{HasOuterCause};
ghost use Rattle.outer_traits.specs.Passing.{GivesAtMost, ReadsMore};

use crate::error::Outer;
use crate::source::Source;
use bytes::Bytes;
use std::alloc::{AllocError, Global};

/// How many bytes are asked for at once.
const PIECE: usize = 65_536;

/// Reads a source to its end, or to one byte past the most that it may have.
pub fn read_whole<S: Source>(alloc: Global, source: &mut S, most: usize) -> Outer<Bytes>
    requires { most < 2 ^ 62 }
    ensures bytes { IfOk result (λ input. Consumes (S.left source.old) (S.left source.new) input) }
    ensures whole { IfOk result (λ input. length input ≤ most → IsAtEnd (S.left source.new)) }
    ensures cause { HasOuterCause (S.faults source.old) (S.faults source.new) result }
    ensures most { GivesAtMost (S.left source.old) (S.left source.new) (most + 1) }
{
    let input = gather(alloc, source, most)?;
    Ok(Bytes::from_vec(input)?)
}

/// The same, in one piece of memory that grows.
fn gather<S: Source>(alloc: Global, source: &mut S, most: usize) -> Outer<Vec<u8>>
    requires { most < 2 ^ 62 }
    ensures bytes { IfOk result (λ v. Consumes (S.left source.old) (S.left source.new) v.items) }
    ensures whole { IfOk result (λ v. vec_len v ≤ most → IsAtEnd (S.left source.new)) }
    ensures cause { HasOuterCause (S.faults source.old) (S.faults source.new) result }
    ensures most { GivesAtMost (S.left source.old) (S.left source.new) (most + 1) }
{
    let mut input = Vec::new(alloc);
    let mut piece = empty_piece(alloc, PIECE)?;
    while input.len() <= most {
        let room = piece.len().min(most + 1 - input.len());
        if read_more(source, &mut piece[..room], &mut input)? == 0 {
            return Ok(input);
        }
    }
    Ok(input)
}

/// A piece of so many bytes, to be read into.
fn empty_piece(alloc: Global, len: usize) -> Result<Vec<u8>, AllocError>
    ensures len { IfOk result (λ v. vec_len v ≡ len) }
{
    vec![in alloc; 0; len]
}

/// Reads once, into the piece, and appends what came to the input. Says how many bytes came.
fn read_more<S: Source>(source: &mut S, piece: &mut [u8], input: &mut Vec<u8>) -> Outer<usize>
    requires { 0 < length piece.old }
    ensures bytes { IfOk result (ReadsMore (S.left source.old) (S.left source.new)
        input.old.items input.new.items (length piece.old)) }
    ensures cause { HasOuterCause (S.faults source.old) (S.faults source.new) result }
    ensures most { GivesAtMost (S.left source.old) (S.left source.new) (length piece.old) }
{
    let count = source.read(piece)?;
    input.extend_from_slice(&piece[..count])?;
    Ok(count)
}
