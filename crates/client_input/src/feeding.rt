//! More input for a reader of frames.

ghost use Rattle.std.specs.Prelude.{◌≡◌, ◌<◌, ◌≤◌, Err, take, vec_len, IfOk, OnOk, OnErr};
ghost use Rattle.std.specs.Io.KnownBytes.{Consumes, IsAtEnd, Keeps};
ghost use Rattle.outer_traits.specs.Causes.{HasOuterCause};
ghost use Rattle.outer_traits.specs.declared.error.OuterError.TheVariants as outer_error;
ghost use Rattle.client_input.specs.Feeding.{FeedsMore};

use frame_stream::{Bytes, FrameReader};
use outer_traits::{Outer, Source};
use std::alloc::{AllocError, Global};

/// How many bytes are read at once at most.
const PIECE: usize = 65_536;

/// What reading came to.
#[derive(Clone, Copy, Debug, PartialEq, Eq)]
pub enum Input {
    More,
    End,
}

/// Reads once into a piece, and feeds the reader with a copy of what came. A client that sends few bytes and waits would
/// else have a whole new piece made each time.
pub fn feed_more<S: Source>(
    alloc: Global,
    source: &mut S,
    piece: &mut Vec<u8>,
    reader: &mut FrameReader,
) -> Outer<Input>
    ensures fed { IfOk result (FeedsMore (S.left source.old) (S.left source.new) reader.old reader.new) }
    ensures err { OnErr result (reader.new ≡ reader.old) }
    ensures failed { result ≡ Err outer_error.Failed → Keeps (S.left source.old) (S.left source.new) }
    ensures cause { HasOuterCause (S.faults source.old) (S.faults source.new) result }
{
    let count = read_piece(source, piece)?;
    if count == 0 {
        return Ok(Input::End);
    }
    reader.feed(Bytes::copy_from_slice(alloc, &piece[..count])?)?;
    Ok(Input::More)
}

/// Reads once to the front of a piece, and says how many bytes came. None are the end of the input.
fn read_piece<S: Source>(source: &mut S, piece: &mut Vec<u8>) -> Outer<usize>
    ensures within { IfOk result (λ count. count ≤ vec_len piece.new) }
    ensures bytes { IfOk result (λ count. Consumes (S.left source.old) (S.left source.new) (take count piece.new.items)) }
    ensures end { IfOk result (λ count. count ≡ 0 → IsAtEnd (S.left source.new)) }
    ensures failed { result ≡ Err outer_error.Failed → Keeps (S.left source.old) (S.left source.new) }
    ensures cause { HasOuterCause (S.faults source.old) (S.faults source.new) result }
{
    make_piece(piece)?;
    Ok(source.read(piece)?)
}

/// Makes a piece, unless there is one.
fn make_piece(piece: &mut Vec<u8>) -> Result<(), AllocError>
    ensures { OnOk result (0 < vec_len piece.new) }
{
    if piece.is_empty() {
        piece.resize(PIECE, 0)?;
    }
    Ok(())
}
