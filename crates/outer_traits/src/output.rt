ghost use Rattle.std.specs.Io.KnownBytes.{Appends};
ghost use Rattle.std.specs.Prelude.{◌≡◌, ◌<◌, ◌≤◌, Ok, OnOk, [], vec_len};
ghost use Rattle.outer_traits.specs.Causes.{HasOuterCause};
ghost use Rattle.outer_traits.specs.Passing.{WritesPrefix, Passes};
ghost use Rattle.outer_traits.specs.declared.output.TheConstants.{PIECE};

use crate::error::Outer;
use crate::sink::Sink;

/// How many bytes a buffer gathers before they are passed on.
pub const PIECE: usize = 131_072;

/// Writes all the bytes. Where that fails, the sink has taken a prefix of them.
pub fn write_all<K: Sink>(sink: &mut K, bytes: &[u8]) -> Outer<()>
    ensures whole { OnOk result (Appends (K.contents sink.old) (K.contents sink.new) bytes.now) }
    ensures prefix { WritesPrefix (K.contents sink.old) (K.contents sink.new) bytes.now }
    ensures cause { HasOuterCause (K.faults sink.old) (K.faults sink.new) result }
{
    let mut rest = bytes;
    while !rest.is_empty() {
        let count = sink.write(rest)?;
        let (_, after) = rest.split_at(count);
        rest = after;
    }
    Ok(())
}

/// Passes on what a buffer has gathered, where it is a large piece by now. A smaller one waits for more.
pub fn pass_on<K: Sink>(sink: &mut K, buffer: &mut Vec<u8>) -> Outer<()>
    ensures passed { OnOk result (Passes (K.contents sink.old) (K.contents sink.new)
        buffer.old.items buffer.new.items []) }
    ensures small { OnOk result (vec_len buffer.new < PIECE) }
    ensures kept { vec_len buffer.old < PIECE → (result ≡ Ok tt) × (sink.new ≡ sink.old) × (buffer.new ≡ buffer.old) }
    ensures emptied { PIECE ≤ vec_len buffer.old → OnOk result (buffer.new.items ≡ []) }
    ensures prefix { WritesPrefix (K.contents sink.old) (K.contents sink.new) buffer.old.items }
    ensures cause { HasOuterCause (K.faults sink.old) (K.faults sink.new) result }
{
    if buffer.len() >= PIECE {
        write_all(sink, buffer)?;
        buffer.clear();
    }
    Ok(())
}
