ghost use Rattle.std.specs.Prelude.{◌≡◌, ◌≤◌, length, IfOk, OnOk, IfErr};
ghost use Rattle.std.specs.Io.KnownBytes.{Consumes, IsAtEnd};
ghost use Rattle.outer_traits.specs.Passing.{GivesAtMost};
ghost use Rattle.volume_cli.specs.Steps.{ReadCounts};

use crate::status::Status;
use journal_book::Bytes;
use outer_traits::{OuterError, Source, read_whole};
use script_text::MOST_INPUT;
use std::alloc::Global;

/// Reads the input to its end, or to one byte past the most that it may have.
pub fn read_input<S: Source>(alloc: Global, source: &mut S) -> Result<Bytes, Status>
    ensures bytes { IfOk result (λ input. Consumes (S.left source.old) (S.left source.new) input) }
    ensures whole { IfOk result (λ input. length input ≤ 268435456 → IsAtEnd (S.left source.new)) }
    ensures counts { ReadCounts result (S.faults source.old) (S.faults source.new) }
    ensures most { GivesAtMost (S.left source.old) (S.left source.new) 268435457 }
{
    match read_whole(alloc, source, MOST_INPUT) {
        Ok(input) => Ok(input),
        Err(OuterError::Failed) => Err(Status::ReadFault),
        Err(OuterError::NoMemory) => Err(Status::NoMemory),
    }
}
